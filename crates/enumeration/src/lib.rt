#![tactic(auto, using(table::proofs::Shown::held_next))]
// Enumerations, after the word `enum`.
ghost use Rattle.std.specs.Prelude.{◌≤◌};
ghost use Rattle.definition.specs.Enumeration.{bare_enum, close_enum, enum_body, after_tag};
ghost use Rattle.definition.specs.Reader.{levels};
ghost use Rattle.model.specs.Meaning.{model};
ghost use Rattle.encoding.specs.Spans.{span};
ghost use Rattle.table.specs.Held.{Held};
ghost use Rattle.table.specs.Reply.{reply, Does};
ghost use Rattle.naming.specs.Meaning.{tokens};

use body_rows::{add_enum, define_enum};
use encoding::names::NO_NAME;
use encoding::refusals::{Reason, Refusal};
use encoding::span::Span;
use encoding::token_kinds::TokenKind;
use enum_sizes::enum_bytes;
use enumerators::enumerators;
use model::Model;
use named_rows::enum_tag_row;
use naming::Tokens;
use table::{Answer, Cursor};
use words::classes::is_name;

// `enum` and a tag without braces; `enum` alone is refused at its tag's place.
fn bare_enum(
    w: &mut [u32],
    d: &mut [u64],
    v: &mut [i64],
    c: Cursor,
    m: Model,
    name: u32,
    at: usize,
) -> Answer<u32>
    requires { Held c w.old d.old v.old }
    ensures { Does (bare_enum (model m) name at) c w.old d.old v.old (reply result) w.new d.new v.new }
{
    if name == NO_NAME {
        return Err(Refusal {
            reason: Reason::MissingName,
            at,
        });
    }
    enum_tag_row(w, d, v, c, m.enum_size, name)
}

// The row of a body that was read: its tag's, or that of a body without one.
fn close_enum(
    w: &mut [u32],
    d: &mut [u64],
    v: &mut [i64],
    c: Cursor,
    name: u32,
    bytes: u64,
    values: Span,
) -> Answer<u32>
    requires held { Held c w.old d.old v.old }
    requires first_bound { values.first ≤ 4096 }
    ensures { Does (close_enum name bytes (span values)) c w.old d.old v.old (reply result) w.new d.new v.new }
{
    if name == NO_NAME {
        return add_enum(w, d, v, c, bytes, values);
    }
    let (e, n) = enum_tag_row(w, d, v, c, bytes, name)?;
    define_enum(w, d, v, e, name, n, bytes, values);
    Ok((e, n))
}

// A body after its brace, of a tag or of none.
fn enum_body(
    ts: &Tokens<'_>,
    w: &mut [u32],
    d: &mut [u64],
    v: &mut [i64],
    c: Cursor,
    m: Model,
    name: u32,
    room: u32,
) -> Answer<u32>
    requires { Held c w.old d.old v.old }
    ensures { Does (enum_body (tokens ts.now) (model m) (levels (tokens ts.now) (model m) room) name) c w.old d.old v.old (reply result) w.new d.new v.new }
{
    let first = c.values;
    let e = enumerators(ts, w, d, v, c, room)?;
    let bytes = enum_bytes(m, v, e, first);
    let count = (e.values - first) as u32;
    let values = Span {
        first: first as u32,
        count,
    };
    close_enum(w, d, v, e, name, bytes, values)
}

// What follows the tag, if any; `at` is the tag's place.
fn after_tag(
    ts: &Tokens<'_>,
    w: &mut [u32],
    d: &mut [u64],
    v: &mut [i64],
    c: Cursor,
    m: Model,
    name: u32,
    at: usize,
    room: u32,
) -> Answer<u32>
    requires { Held c w.old d.old v.old }
    ensures { Does (after_tag (tokens ts.now) (model m) (levels (tokens ts.now) (model m) room) name at) c w.old d.old v.old (reply result) w.new d.new v.new }
{
    let i = c.at;
    match ts.kind(i) {
        TokenKind::Colon => Err(Refusal {
            reason: Reason::FixedEnum,
            at,
        }),
        TokenKind::OpenBrace => enum_body(ts, w, d, v, c.moved(i + 1), m, name, room),
        _ => bare_enum(w, d, v, c, m, name, at),
    }
}

// The enumeration after `enum`, with `room` levels of nesting left.
pub fn enumeration(
    ts: &Tokens<'_>,
    w: &mut [u32],
    d: &mut [u64],
    v: &mut [i64],
    c: Cursor,
    m: Model,
    room: u32,
) -> Answer<u32>
    requires { Held c w.old d.old v.old }
    ensures { Does (levels (tokens ts.now) (model m) room).enumeration c w.old d.old v.old (reply result) w.new d.new v.new }
{
    let at = c.at;
    if room == 0 {
        return Err(Refusal {
            reason: Reason::TooDeep,
            at,
        });
    }
    if is_name(ts.kind(at)) {
        let name = ts.name(at);
        return after_tag(ts, w, d, v, c.moved(at + 1), m, name, at, room - 1);
    }
    after_tag(ts, w, d, v, c, m, NO_NAME, at, room - 1)
}
