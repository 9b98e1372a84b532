#![tactic(auto, using(table::proofs::Shown::held_next))]
// Declarations: one alone, or all of a header. What the tables hold before is kept: a new table has none.
ghost use Rattle.std.specs.Prelude.{suc};
ghost use Rattle.definition.specs.Token.{left};
ghost use Rattle.definition.specs.Reader.{init_declarator, declaration, declarations_from};
ghost use Rattle.table.specs.Held.{Held};
ghost use Rattle.table.specs.Reply.{reply_alone, Moves};
ghost use Rattle.encoding.specs.Storage.{storage};
ghost use Rattle.parser.specs.Answers.{MovesIn};
ghost use Rattle.parser.specs.Parsing.{tokens_of, model_of};
ghost use Rattle.declarations.specs.Pieces.{declarators_in, after_base, alone_from};

use base_types::base_type;
use declaration_entries::{
    add_declaration, declare, is_typedef, nothing_more, optional_semicolon, separated,
};
use encoding::names::NO_NAME;
use encoding::refusals::{Reason, Refusal};
use encoding::storage::Storage;
use encoding::token_kinds::TokenKind;
use model::Model;
use parser::parser::Parser;
use parser::{declared_type, specifiers};
use skipping::initialiser;
use table::{Cursor, Declaration};

// "depth above 64": a declaration takes a level itself.
const INNER_ROOM: u32 = Model::MAX_DEPTH - 1;

// One declarator of a declaration, with its initialiser.
fn init_declarator(
    parser: &Parser<'_>,
    w: &mut [u32],
    d: &mut [u64],
    v: &mut [i64],
    c: Cursor,
    class: Storage,
    b: u32,
) -> Result<Cursor, Refusal>
    requires { Held c w.old d.old v.old }
    ensures { Moves (init_declarator (tokens_of parser.now) (model_of parser.now) (storage class) b) c w.old d.old v.old (reply_alone result) w.new d.new v.new }
{
    let at = c.at;
    let (e, t) = declared_type(parser, w, d, v, c, b, INNER_ROOM)?;
    if t.name == NO_NAME {
        return Err(Refusal {
            reason: Reason::MissingName,
            at,
        });
    }
    let f = e.moved(initialiser(parser.tokens.kinds, e.at));
    let x = Declaration {
        storage: class,
        ty: t.ty,
        name: t.name,
    };
    add_declaration(w, d, v, f, x, at)
}

// The declarators of a declaration.
fn init_declarators(
    parser: &Parser<'_>,
    w: &mut [u32],
    d: &mut [u64],
    v: &mut [i64],
    c: Cursor,
    class: Storage,
    b: u32,
) -> Result<Cursor, Refusal>
    requires { Held c w.old d.old v.old }
    ensures { MovesIn (declarators_in (tokens_of parser.now) (model_of parser.now) (storage class) b) (left (tokens_of parser.now) c.at) c w.old d.old v.old (reply_alone result) w.new d.new v.new }
{
    let mut here = c;
    loop {
        let e = init_declarator(parser, w, d, v, here, class, b)?;
        let i = e.at;
        if parser.tokens.kind(i) != TokenKind::Comma {
            return Ok(e);
        }
        here = e.moved(i + 1);
    }
}

// What follows the type of a declaration that began at `at`: nothing, so that it declares a type alone, or its declarators.
fn after_base(
    parser: &Parser<'_>,
    w: &mut [u32],
    d: &mut [u64],
    v: &mut [i64],
    c: Cursor,
    class: Storage,
    b: u32,
    at: usize,
) -> Result<Cursor, Refusal>
    requires { Held c w.old d.old v.old }
    ensures { MovesIn (after_base (tokens_of parser.now) (model_of parser.now) (storage class) b at) (left (tokens_of parser.now) c.at) c w.old d.old v.old (reply_alone result) w.new d.new v.new }
{
    let kind = parser.tokens.kind(c.at);
    if kind == TokenKind::Semicolon || kind == TokenKind::End {
        if is_typedef(class) {
            return Err(Refusal {
                reason: Reason::MissingName,
                at,
            });
        }
        return declare(
            w,
            d,
            v,
            c,
            Declaration {
                storage: class,
                ty: b,
                name: NO_NAME,
            },
        );
    }
    init_declarators(parser, w, d, v, c, class, b)
}

// A declaration up to its semicolon.
pub fn declaration(
    parser: &Parser<'_>,
    w: &mut [u32],
    d: &mut [u64],
    v: &mut [i64],
    c: Cursor,
) -> Result<Cursor, Refusal>
    requires { Held c w.old d.old v.old }
    ensures { Moves (declaration (tokens_of parser.now) (model_of parser.now)) c w.old d.old v.old (reply_alone result) w.new d.new v.new }
{
    let at = c.at;
    let (e, p) = specifiers(parser, w, d, v, c, INNER_ROOM)?;
    let (f, b) = base_type(w, d, v, e, parser.model, p, at)?;
    let class = p.storage;
    after_base(parser, w, d, v, f, class, b, at)
}

// All declarations to the end of the tokens.
pub fn declarations(
    parser: &Parser<'_>,
    w: &mut [u32],
    d: &mut [u64],
    v: &mut [i64],
    c: Cursor,
) -> Result<Cursor, Refusal>
    requires { Held c w.old d.old v.old }
    ensures { Moves (declarations_from (tokens_of parser.now) (model_of parser.now) (suc (left (tokens_of parser.now) c.at))) c w.old d.old v.old (reply_alone result) w.new d.new v.new }
{
    let mut here = c;
    loop {
        let at = here.at;
        let kind = parser.tokens.kind(at);
        if kind == TokenKind::End {
            return Ok(here);
        }
        if kind == TokenKind::Semicolon {
            here = here.moved(at + 1);
        } else {
            let e = declaration(parser, w, d, v, here)?;
            here = separated(parser.tokens.kinds, e)?;
        }
    }
}

// One declaration, its semicolon optional, and nothing after it.
pub fn lone_declaration(
    parser: &Parser<'_>,
    w: &mut [u32],
    d: &mut [u64],
    v: &mut [i64],
    c: Cursor,
) -> Result<Cursor, Refusal>
    requires { Held c w.old d.old v.old }
    ensures { Moves (alone_from (tokens_of parser.now) (model_of parser.now)) c w.old d.old v.old (reply_alone result) w.new d.new v.new }
{
    let e = declaration(parser, w, d, v, c)?;
    let kinds = parser.tokens.kinds;
    nothing_more(kinds, optional_semicolon(kinds, e))
}
