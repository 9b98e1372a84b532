#![tactic(auto, using(table::proofs::Shown::held_next))]
// The types that words and names make: rows of base types.
ghost use Rattle.definition.specs.Specifiers.{named_type, words_type, base_type};
ghost use Rattle.table.specs.Held.{Held};
ghost use Rattle.table.specs.Reply.{reply, Does};
ghost use Rattle.model.specs.Meaning.{model};
ghost use Rattle.words.specs.Meaning.{specifiers};
ghost use Rattle.naming.specs.Meaning.{tokens};
ghost use Rattle.base_types.specs.Basing.{AddsPlain};

use encoding::refusals::{Reason, Refusal};
use model::Model;
use named_rows::typedef_row;
use naming::Tokens;
use table::{Answer, Cursor, Numbers};
use type_rows::{add_row, qualify};
use words::classes::is_name;
use words::specifiers::Specifiers;
use words::types::{BaseRow, builtin, combine};

// The row of a type that words or a known name make.
#[tactic(auto, using(crate::proofs::Named::plain_numbers))]
fn add_base(w: &mut [u32], d: &mut [u64], v: &mut [i64], c: Cursor, base: BaseRow) -> Answer<u32>
    requires { Held c w.old d.old v.old }
    ensures { AddsPlain base c w.old d.old v.old (reply result) w.new d.new v.new }
{
    add_row(
        w,
        d,
        v,
        c,
        Numbers {
            kind: base.kind,
            flags: base.flags,
            extent: base.extent,
            ..Numbers::ZERO
        },
    )
}

// The row of a type name: a typedef's, or that of a name that every program assumes.
pub fn named_type(
    ts: &Tokens<'_>,
    w: &mut [u32],
    d: &mut [u64],
    v: &mut [i64],
    c: Cursor,
    m: Model,
) -> Answer<u32>
    requires { Held c w.old d.old v.old }
    ensures { Does (named_type (tokens ts.now) (model m)) c w.old d.old v.old (reply result) w.new d.new v.new }
{
    let at = c.at;
    let kind = ts.kind(at);
    let unknown = Refusal {
        reason: Reason::UnknownType,
        at,
    };
    if !is_name(kind) {
        return Err(unknown);
    }
    if let Some(n) = typedef_row(w, c, ts.name(at)) {
        return Ok((c, n));
    }
    let b = builtin(m, kind).ok_or(unknown)?;
    add_base(w, d, v, c, b)
}

// The type that specifiers name, read from the token `at` on.
pub fn words_type(
    w: &mut [u32],
    d: &mut [u64],
    v: &mut [i64],
    c: Cursor,
    m: Model,
    p: Specifiers,
    at: usize,
) -> Answer<u32>
    requires { Held c w.old d.old v.old }
    ensures { Does (words_type (model m) (specifiers p) at) c w.old d.old v.old (reply result) w.new d.new v.new }
{
    if let Some(n) = p.base {
        return Ok((c, n));
    }
    let b = combine(m, p.words).ok_or(Refusal {
        reason: Reason::BadTypeWords,
        at,
    })?;
    add_base(w, d, v, c, b)
}

// The same with its qualifiers.
pub fn base_type(
    w: &mut [u32],
    d: &mut [u64],
    v: &mut [i64],
    c: Cursor,
    m: Model,
    p: Specifiers,
    at: usize,
) -> Answer<u32>
    requires { Held c w.old d.old v.old }
    ensures { Does (base_type (model m) (specifiers p) at) c w.old d.old v.old (reply result) w.new d.new v.new }
{
    let (e, n) = words_type(w, d, v, c, m, p, at)?;
    qualify(w, d, v, e, p.qualifiers, n)
}
