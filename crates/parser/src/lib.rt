#![tactic(auto, using(table::proofs::Shown::held_next))]
// The parser's cycle: specifiers, structs and unions, declarators and parameter lists. `room` is how many levels of nesting are left, as the
// definition's `levels` counts them; the functions inside a level have the room of the level below it.
ghost use Rattle.std.specs.Prelude.{◌≡◌, true, suc, ◌≤◌, ◌<◌, length, Err};
ghost use Rattle.encoding.specs.Kinds.{kind_number, kind_numbers};
ghost use Rattle.definition.specs.Limit.{max_members, max_parameters};
ghost use Rattle.definition.specs.Token.{left};
ghost use Rattle.definition.specs.Specifiers.{tagged_type, specifiers};
ghost use Rattle.definition.specs.Declarator.{suffixes, parameters, parameter, parameters_from};
ghost use Rattle.definition.specs.Composite.{tagged_composite, untagged_composite, body, members_from, member_declaration, member_declarator};
ghost use Rattle.table.specs.Held.{Held};
ghost use Rattle.table.specs.Reply.{reply, reply_alone, reply_by, Does, Moves, Runs};
ghost use Rattle.declarator_steps.specs.Pending.{Waiting};
ghost use Rattle.member_entries.specs.Ended.{laid};
ghost use Rattle.declarator_heads.specs.Heads.{is_plain_pointer};
ghost use Rattle.words.specs.Meaning.{specifiers as said};
ghost use Rattle.declarator_steps.specs.Pending.{step_of};
ghost use Rattle.parser.specs.Answers.{typed, both_numbers, Starting, declarator_of, Declares, MovesIn, Types};
ghost use Rattle.parser.specs.Parsing.{tokens_of, model_of, levels_of};
ghost use Rattle.parser.specs.Pieces.{type_row, after_type, declarators_in, suffix_step, typed_from};

pub mod parser;

use crate::parser::Parser;
use base_types::{base_type, named_type};
use body_rows::{add_body, define_body};
use bounds_widths::array_bound;
use declarator_heads::{is_plain, is_plain_pointer, opens_declarator, stars};
use declarator_steps::{Step, Steps};
use derived_types::{apply, apply_pointer};
use encoding::names::NO_NAME;
use encoding::refusals::{Reason, Refusal};
use encoding::storage::Storage;
use encoding::token_kinds::TokenKind;
use enumeration::enumeration;
use fields::anonymous_member;
use member_entries::{Body, close_body, field};
use named_rows::tag_row;
use parameter_entries::{add_parameter, is_void_list, parameters_end};
use skipping::qualifiers_here;
use specifier_words::{has_base, says_no_type, with_word};
use table::{Answer, Cursor};
use words::classes::{is_name, is_tag_word, is_type_word, is_word};
use words::specifiers::Specifiers;

// The levels that a name takes: a declarator's, and that of what its stars stand before.
const NAME_LEVELS: u32 = 2;

// Where to read on after a declarator and the name that it declares, 0 for none, or a refusal; and its steps, of which 3 KB in a result would be copied at each `?`.
#[derive(Clone, Copy)]
struct Declared {
    answer: Answer<u32>,
    steps: Steps,
}

// A declared type and its name, 0 for none.
#[derive(Clone, Copy)]
pub struct Typed {
    pub ty: u32,
    pub name: u32,
}

// ---- specifiers

// The row of a struct, union or enum, by its keyword.
#[cycle(levels)]
fn tag_type(
    parser: &Parser<'_>,
    w: &mut [u32],
    d: &mut [u64],
    v: &mut [i64],
    c: Cursor,
    kind: TokenKind,
    room: u32,
) -> Answer<u32>
    requires { Held c w.old d.old v.old }
    ensures { Does (tagged_type (tokens_of parser.now) (model_of parser.now) (levels_of parser.now room) (kind_number kind)) c w.old d.old v.old (reply result) w.new d.new v.new }
{
    if kind == TokenKind::EnumWord {
        return enumeration(&parser.tokens, w, d, v, c, parser.model, room);
    }
    composite(parser, w, d, v, c, kind == TokenKind::UnionWord, room)
}

// The row of a tag or a type name, read past it.
#[cycle(levels)]
fn type_row(
    parser: &Parser<'_>,
    w: &mut [u32],
    d: &mut [u64],
    v: &mut [i64],
    c: Cursor,
    room: u32,
) -> Answer<u32>
    requires held { Held c w.old d.old v.old }
    requires at_in_bounds { c.at < length (kind_numbers parser.now.tokens.kinds.now) }
    ensures { Does (type_row (tokens_of parser.now) (model_of parser.now) (levels_of parser.now room)) c w.old d.old v.old (reply result) w.new d.new v.new }
{
    let at = c.at;
    let kind = parser.tokens.kind(at);
    if is_tag_word(kind) {
        return tag_type(parser, w, d, v, c.moved(at + 1), kind, room);
    }
    let (e, n) = named_type(&parser.tokens, w, d, v, c, parser.model)?;
    Ok((e.moved(at + 1), n))
}

// Words are read on until one is no specifier.
#[cycle(levels)]
pub fn specifiers(
    parser: &Parser<'_>,
    w: &mut [u32],
    d: &mut [u64],
    v: &mut [i64],
    c: Cursor,
    room: u32,
) -> Answer<Specifiers>
    requires { Held c w.old d.old v.old }
    ensures { Does (specifiers (tokens_of parser.now) (model_of parser.now) (levels_of parser.now room)) c w.old d.old v.old (reply_by said result) w.new d.new v.new }
{
    let mut p = Specifiers::none();
    let mut here = c;
    loop {
        let at = here.at;
        let kind = parser.tokens.kind(at);
        if !is_word(kind) {
            if kind == TokenKind::Attribute {
                return Err(Refusal {
                    reason: Reason::LayoutAttribute,
                    at,
                });
            }
            return Ok((here, p));
        }
        if says_no_type(kind) {
            p = with_word(p, kind);
            here = here.moved(at + 1);
        } else if is_type_word(kind) {
            if has_base(p) {
                return Err(Refusal {
                    reason: Reason::BadTypeWords,
                    at,
                });
            }
            p = p.wording(kind);
            here = here.moved(at + 1);
        } else {
            if p.names_type() {
                if is_tag_word(kind) {
                    return Err(Refusal {
                        reason: Reason::BadTypeWords,
                        at,
                    });
                }
                return Ok((here, p));
            }
            let (e, n) = type_row(parser, w, d, v, here, room)?;
            p = p.based_on(n);
            here = e;
        }
    }
}

// ---- structs and unions

// After `struct` or `union`.
#[cycle(levels)]
pub fn composite(
    parser: &Parser<'_>,
    w: &mut [u32],
    d: &mut [u64],
    v: &mut [i64],
    c: Cursor,
    union: bool,
    room: u32,
) -> Answer<u32>
    requires { Held c w.old d.old v.old }
    ensures { Does ((levels_of parser.now room).composite union) c w.old d.old v.old (reply result) w.new d.new v.new }
{
    let at = c.at;
    if room == 0 {
        return Err(Refusal {
            reason: Reason::TooDeep,
            at,
        });
    }
    if !is_name(parser.tokens.kind(at)) {
        return without_tag(parser, w, d, v, c, union, room - 1);
    }
    let name = parser.tokens.name(at);
    with_tag(parser, w, d, v, c.moved(at + 1), union, name, at, room - 1)
}

// A tag is known before its body is read, so that the body can name it. `at` is the tag's place.
#[cycle(levels)]
fn with_tag(
    parser: &Parser<'_>,
    w: &mut [u32],
    d: &mut [u64],
    v: &mut [i64],
    c: Cursor,
    union: bool,
    name: u32,
    at: usize,
    room: u32,
) -> Answer<u32>
    requires { Held c w.old d.old v.old }
    ensures { Does (tagged_composite (tokens_of parser.now) (model_of parser.now) (levels_of parser.now room) union name at) c w.old d.old v.old (reply result) w.new d.new v.new }
{
    let (e, n) = tag_row(w, d, v, c, union, name)?;
    let i = e.at;
    if parser.tokens.kind(i) != TokenKind::OpenBrace {
        return Ok((e, n));
    }
    let (f, b) = body(parser, w, d, v, e.moved(i + 1), union, at, room)?;
    define_body(w, d, v, f, union, name, n, b.size, b.fields);
    Ok((f, n))
}

// A body without a tag.
#[cycle(levels)]
fn without_tag(
    parser: &Parser<'_>,
    w: &mut [u32],
    d: &mut [u64],
    v: &mut [i64],
    c: Cursor,
    union: bool,
    room: u32,
) -> Answer<u32>
    requires { Held c w.old d.old v.old }
    ensures { Does (untagged_composite (tokens_of parser.now) (model_of parser.now) (levels_of parser.now room) union c.at) c w.old d.old v.old (reply result) w.new d.new v.new }
{
    let at = c.at;
    if parser.tokens.kind(at) != TokenKind::OpenBrace {
        return Err(Refusal {
            reason: Reason::MissingName,
            at,
        });
    }
    let (f, b) = body(parser, w, d, v, c.moved(at + 1), union, at, room)?;
    add_body(w, d, v, f, union, b.size, b.fields)
}

// A body after its brace, laid out; `at` is its tag's place.
#[cycle(levels)]
fn body(
    parser: &Parser<'_>,
    w: &mut [u32],
    d: &mut [u64],
    v: &mut [i64],
    c: Cursor,
    union: bool,
    at: usize,
    room: u32,
) -> Answer<Body>
    requires { Held c w.old d.old v.old }
    ensures { Does (body (tokens_of parser.now) (model_of parser.now) (levels_of parser.now room) union at) c w.old d.old v.old (reply_by laid result) w.new d.new v.new }
{
    let first = c.members as u32;
    let e = member_list(parser, w, d, v, c, first, room)?;
    close_body(w, d, e, parser.model, union, first, at)
}

// Members up to the closing brace.
#[cycle(levels)]
fn member_list(
    parser: &Parser<'_>,
    w: &mut [u32],
    d: &mut [u64],
    v: &mut [i64],
    c: Cursor,
    first: u32,
    room: u32,
) -> Result<Cursor, Refusal>
    requires held { Held c w.old d.old v.old }
    requires first_le_max_members { first ≤ max_members }
    ensures { Moves (members_from (tokens_of parser.now) (model_of parser.now) (levels_of parser.now room) (suc (left (tokens_of parser.now) c.at)) first) c w.old d.old v.old (reply_alone result) w.new d.new v.new }
{
    let mut here = c;
    loop {
        let at = here.at;
        let kind = parser.tokens.kind(at);
        if kind == TokenKind::CloseBrace {
            return Ok(here.moved(at + 1));
        }
        if kind == TokenKind::End {
            return Err(Refusal {
                reason: Reason::MissingMark,
                at,
            });
        }
        if kind == TokenKind::Semicolon {
            here = here.moved(at + 1);
        } else {
            let e = member(parser, w, d, v, here, first, room)?;
            here = e;
        }
    }
}

// One member declaration: its type, and its declarators.
#[cycle(levels)]
fn member(
    parser: &Parser<'_>,
    w: &mut [u32],
    d: &mut [u64],
    v: &mut [i64],
    c: Cursor,
    first: u32,
    room: u32,
) -> Result<Cursor, Refusal>
    requires held { Held c w.old d.old v.old }
    requires first_le_max_members { first ≤ max_members }
    ensures { Moves (member_declaration (tokens_of parser.now) (model_of parser.now) (levels_of parser.now room) first) c w.old d.old v.old (reply_alone result) w.new d.new v.new }
{
    let at = c.at;
    let (e, p) = specifiers(parser, w, d, v, c, room)?;
    if p.storage != Storage::NoStorage {
        return Err(Refusal {
            reason: Reason::MemberStorage,
            at,
        });
    }
    let (f, b) = base_type(w, d, v, e, parser.model, p, at)?;
    after_type(parser, w, d, v, f, first, b, at, room)
}

// What follows the type of a member declaration that began at `at`.
#[cycle(levels)]
fn after_type(
    parser: &Parser<'_>,
    w: &mut [u32],
    d: &mut [u64],
    v: &mut [i64],
    c: Cursor,
    first: u32,
    b: u32,
    at: usize,
    room: u32,
) -> Result<Cursor, Refusal>
    requires held { Held c w.old d.old v.old }
    requires first_le_max_members { first ≤ max_members }
    ensures { MovesIn (after_type (tokens_of parser.now) (model_of parser.now) (levels_of parser.now room) first b at) (left (tokens_of parser.now) c.at) c w.old d.old v.old (reply_alone result) w.new d.new v.new }
{
    let i = c.at;
    if parser.tokens.kind(i) == TokenKind::Semicolon {
        return anonymous_member(w, d, v, c.moved(i + 1), first, b, at);
    }
    declarators(parser, w, d, v, c, first, b, room)
}

// The declarators of one member declaration, up to its semicolon.
#[cycle(levels)]
fn declarators(
    parser: &Parser<'_>,
    w: &mut [u32],
    d: &mut [u64],
    v: &mut [i64],
    c: Cursor,
    first: u32,
    b: u32,
    room: u32,
) -> Result<Cursor, Refusal>
    requires held { Held c w.old d.old v.old }
    requires first_le_max_members { first ≤ max_members }
    ensures { MovesIn (declarators_in (tokens_of parser.now) (model_of parser.now) (levels_of parser.now room) first b) (left (tokens_of parser.now) c.at) c w.old d.old v.old (reply_alone result) w.new d.new v.new }
{
    let mut here = c;
    loop {
        let e = one_member(parser, w, d, v, here, first, b, room)?;
        let at = e.at;
        if parser.tokens.kind(at) != TokenKind::Comma {
            return e.past(parser.tokens.kinds, TokenKind::Semicolon);
        }
        here = e.moved(at + 1);
    }
}

// An unnamed bit-field, or a declarator with or without a width.
#[cycle(levels)]
fn one_member(
    parser: &Parser<'_>,
    w: &mut [u32],
    d: &mut [u64],
    v: &mut [i64],
    c: Cursor,
    first: u32,
    b: u32,
    room: u32,
) -> Result<Cursor, Refusal>
    requires held { Held c w.old d.old v.old }
    requires first_le_max_members { first ≤ max_members }
    ensures { Moves (member_declarator (tokens_of parser.now) (model_of parser.now) (levels_of parser.now room) first b) c w.old d.old v.old (reply_alone result) w.new d.new v.new }
{
    let at = c.at;
    if parser.tokens.kind(at) == TokenKind::Colon {
        return field(
            parser.tokens.kinds,
            parser.tokens.numbers,
            w,
            d,
            v,
            c,
            first,
            b,
            NO_NAME,
            true,
            at,
            room,
        );
    }
    let (e, t) = declared_type(parser, w, d, v, c, b, room)?;
    field(
        parser.tokens.kinds,
        parser.tokens.numbers,
        w,
        d,
        v,
        e,
        first,
        t.ty,
        t.name,
        false,
        at,
        room,
    )
}

// ---- declarators

fn refused(refusal: Refusal, steps: Steps) -> Declared
    ensures { result ≡ record { answer = Err refusal; steps = steps } }
{
    Declared {
        answer: Err(refusal),
        steps,
    }
}

// Stars, and what they stand before. The stars of the declarators around this one wait in `s`; it has no steps yet.
#[cycle(levels)]
fn declarator(
    parser: &Parser<'_>,
    w: &mut [u32],
    d: &mut [u64],
    v: &mut [i64],
    c: Cursor,
    s: Steps,
    room: u32,
) -> Declared
    requires held { Held c w.old d.old v.old }
    requires starting { Starting s }
    ensures { Declares ((levels_of parser.now room).declarator s.held) c s w.old d.old v.old result w.new d.new v.new }
{
    if room == 0 {
        return refused(
            Refusal {
                reason: Reason::TooDeep,
                at: c.at,
            },
            s,
        );
    }
    let used = s.held;
    let t = stars(parser.tokens.kinds, c, s);
    let held = t.steps;
    let e = match t.answer {
        Ok(e) => e,
        Err(x) => return refused(x, held),
    };
    let all = held.held;
    let r = direct(parser, w, d, v, e, held, room - 1);
    if all == used {
        return r;
    }
    let Ok(_) = r.answer else {
        return r;
    };
    let mut steps = r.steps;
    steps.release_stars(all - used);
    Declared { steps, ..r }
}

// A name, a declarator in parentheses, or nothing; then what follows it.
#[cycle(levels)]
fn direct(
    parser: &Parser<'_>,
    w: &mut [u32],
    d: &mut [u64],
    v: &mut [i64],
    c: Cursor,
    s: Steps,
    room: u32,
) -> Declared
    requires held { Held c w.old d.old v.old }
    requires starting { Starting s }
    ensures { Declares ((levels_of parser.now room).direct s.held) c s w.old d.old v.old result w.new d.new v.new }
{
    let at = c.at;
    if room == 0 {
        return refused(
            Refusal {
                reason: Reason::TooDeep,
                at,
            },
            s,
        );
    }
    let inner = room - 1;
    if is_name(parser.tokens.kind(at)) {
        let name = parser.tokens.name(at);
        return suffixes(parser, w, d, v, c.moved(at + 1), s, name, inner);
    }
    if !opens_declarator(&parser.tokens, w, c, parser.model) {
        return suffixes(parser, w, d, v, c, s, NO_NAME, inner);
    }
    let r = declarator(parser, w, d, v, c.moved(at + 1), s, inner);
    let Ok((e, name)) = r.answer else {
        return r;
    };
    let f = match e.past(parser.tokens.kinds, TokenKind::CloseParen) {
        Ok(f) => f,
        Err(x) => return refused(x, r.steps),
    };
    suffixes(parser, w, d, v, f, r.steps, name, inner)
}

// Bounds and parameter lists after a name.
#[cycle(levels)]
fn suffixes(
    parser: &Parser<'_>,
    w: &mut [u32],
    d: &mut [u64],
    v: &mut [i64],
    c: Cursor,
    s: Steps,
    name: u32,
    room: u32,
) -> Declared
    requires held { Held c w.old d.old v.old }
    requires waiting { Waiting s s.held }
    ensures { Declares (suffixes (tokens_of parser.now) (model_of parser.now) (levels_of parser.now room) s.held (declarator_of s name)) c s w.old d.old v.old result w.new d.new v.new }
{
    let mut here = c;
    let mut t = s;
    loop {
        let at = here.at;
        let kind = parser.tokens.kind(at);
        if kind != TokenKind::OpenBracket && kind != TokenKind::OpenParen {
            return Declared {
                answer: Ok((here, name)),
                steps: t,
            };
        }
        if t.is_full() {
            return refused(
                Refusal {
                    reason: Reason::LimitPassed,
                    at: at + 1,
                },
                t,
            );
        }
        match suffix(parser, w, d, v, here.moved(at + 1), kind, room) {
            Ok((e, x)) => {
                t.push(x);
                here = e;
            }
            Err(x) => return refused(x, t),
        }
    }
}

// One of them, after its bracket or parenthesis, which is of a kind.
#[cycle(levels)]
fn suffix(
    parser: &Parser<'_>,
    w: &mut [u32],
    d: &mut [u64],
    v: &mut [i64],
    c: Cursor,
    kind: TokenKind,
    room: u32,
) -> Answer<Step>
    requires { Held c w.old d.old v.old }
    ensures { Does (suffix_step (tokens_of parser.now) (model_of parser.now) (levels_of parser.now room) (kind_number kind)) c w.old d.old v.old (reply_by step_of result) w.new d.new v.new }
{
    if kind == TokenKind::OpenParen {
        return parameters(parser, w, d, v, c, room);
    }
    let (e, b) = array_bound(parser.tokens.kinds, parser.tokens.numbers, w, v, c, room)?;
    Ok((e, Step::Array(b)))
}

// ---- parameters

// The list after `(`.
#[cycle(levels)]
fn parameters(
    parser: &Parser<'_>,
    w: &mut [u32],
    d: &mut [u64],
    v: &mut [i64],
    c: Cursor,
    room: u32,
) -> Answer<Step>
    requires { Held c w.old d.old v.old }
    ensures { Does (parameters (tokens_of parser.now) (model_of parser.now) (levels_of parser.now room)) c w.old d.old v.old (reply_by step_of result) w.new d.new v.new }
{
    let first = c.parameters as u32;
    if parser.tokens.kind(c.at) == TokenKind::CloseParen {
        return parameters_end(parser.tokens.kinds, c, false, first, 0);
    }
    list(parser, w, d, v, c, first, room)
}

// One parameter: its type, its name.
#[cycle(levels)]
fn parameter(
    parser: &Parser<'_>,
    w: &mut [u32],
    d: &mut [u64],
    v: &mut [i64],
    c: Cursor,
    room: u32,
) -> Answer<Typed>
    requires { Held c w.old d.old v.old }
    ensures { Runs both_numbers (parameter (tokens_of parser.now) (model_of parser.now) (levels_of parser.now room)) c w.old d.old v.old (reply_by typed result) w.new d.new v.new }
{
    let at = c.at;
    let (e, p) = specifiers(parser, w, d, v, c, room)?;
    let (f, b) = base_type(w, d, v, e, parser.model, p, at)?;
    declared_type(parser, w, d, v, f, b, room)
}

// A name alone with one star before it: a pointer to the base type.
fn pointer_type(
    parser: &Parser<'_>,
    w: &mut [u32],
    d: &mut [u64],
    v: &mut [i64],
    c: Cursor,
    b: u32,
) -> Answer<Typed>
    requires held { Held c w.old d.old v.old }
    requires at_value { is_plain_pointer (kind_numbers parser.now.tokens.kinds.now) c.at ≡ true }
    ensures { Types (tokens_of parser.now) b c w.old d.old v.old (reply_by typed result) w.new d.new v.new }
{
    let star = c.at;
    let (q, at) = qualifiers_here(parser.tokens.kinds, star + 1);
    let (e, ty) = apply_pointer(w, d, v, c.moved(at + 1), q, b)?;
    let name = parser.tokens.name(at);
    Ok((e, Typed { ty, name }))
}

// A declarator of a base type: what it makes of the type, and its name. The two most frequent ones need no steps.
#[cycle(levels)]
pub fn declared_type(
    parser: &Parser<'_>,
    w: &mut [u32],
    d: &mut [u64],
    v: &mut [i64],
    c: Cursor,
    b: u32,
    room: u32,
) -> Answer<Typed>
    requires { Held c w.old d.old v.old }
    ensures { Runs both_numbers (typed_from (levels_of parser.now room) b) c w.old d.old v.old (reply_by typed result) w.new d.new v.new }
{
    let at = c.at;
    if is_plain(parser.tokens.kinds, at) && NAME_LEVELS <= room {
        let name = parser.tokens.name(at);
        return Ok((c.moved(at + 1), Typed { ty: b, name }));
    }
    if is_plain_pointer(parser.tokens.kinds, at) && NAME_LEVELS <= room {
        return pointer_type(parser, w, d, v, c, b);
    }
    stepped_type(parser, w, d, v, c, b, room)
}

// The same by its steps. It stands apart: what holds them is cleared at each call.
#[inline(never)]
#[cycle(levels)]
fn stepped_type(
    parser: &Parser<'_>,
    w: &mut [u32],
    d: &mut [u64],
    v: &mut [i64],
    c: Cursor,
    b: u32,
    room: u32,
) -> Answer<Typed>
    requires { Held c w.old d.old v.old }
    ensures { Runs both_numbers (typed_from (levels_of parser.now room) b) c w.old d.old v.old (reply_by typed result) w.new d.new v.new }
{
    let r = declarator(parser, w, d, v, c, Steps::empty(), room);
    let (e, name) = r.answer?;
    let (f, ty) = apply(w, d, v, e, r.steps, b)?;
    Ok((f, Typed { ty, name }))
}

// Parameters up to the closing parenthesis.
#[cycle(levels)]
fn list(
    parser: &Parser<'_>,
    w: &mut [u32],
    d: &mut [u64],
    v: &mut [i64],
    c: Cursor,
    first: u32,
    room: u32,
) -> Answer<Step>
    requires held { Held c w.old d.old v.old }
    requires first_le_max_parameters { first ≤ max_parameters }
    ensures { Does (parameters_from (tokens_of parser.now) (model_of parser.now) (levels_of parser.now room) (suc (left (tokens_of parser.now) c.at)) first 0) c w.old d.old v.old (reply_by step_of result) w.new d.new v.new }
{
    let mut here = c;
    let mut n = 0;
    loop {
        let at = here.at;
        if parser.tokens.kind(at) == TokenKind::Ellipsis {
            return parameters_end(parser.tokens.kinds, here.moved(at + 1), true, first, n);
        }
        let (e, t) = parameter(parser, w, d, v, here, room)?;
        if is_void_list(parser.tokens.kinds, e, n, t.name, t.ty) {
            return parameters_end(parser.tokens.kinds, e, false, first, n);
        }
        let (f, _) = add_parameter(w, d, v, e, first, at, t.ty, t.name)?;
        n += 1;
        let i = f.at;
        if parser.tokens.kind(i) != TokenKind::Comma {
            return parameters_end(parser.tokens.kinds, f, false, first, n);
        }
        here = f.moved(i + 1);
    }
}
