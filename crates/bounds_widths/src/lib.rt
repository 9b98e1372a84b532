#![tactic(auto)]
// The constants in a declarator: widths of bit-fields, and bounds.
ghost use Rattle.std.specs.Prelude.{◌≡◌};
ghost use Rattle.definition.specs.Reader.{levels};
ghost use Rattle.encoding.specs.Kinds.{kind_numbers};
ghost use Rattle.definition.specs.Composite.{bit_width};
ghost use Rattle.definition.specs.Declarator.{bound_of, constant_bound, array_bound};
ghost use Rattle.encoding.specs.Refusals.{answer};
ghost use Rattle.constants.specs.Reading.{tokens};
ghost use Rattle.table.specs.Held.{Room};
ghost use Rattle.evaluating.specs.Leaves.{Leaves};
ghost use Rattle.table.specs.Reply.{reply_by};
ghost use Rattle.lemmas.specs.Options.{option};
ghost use Rattle.bounds_widths.specs.Parts.{Fits};

use encoding::refusals::{Reason, Refusal};
use encoding::token_kinds::TokenKind;
use evaluating::constant_here;
use skipping::bound_words;
use table::{Answer, Cursor, kind_at};

// The greatest width of a bit-field.
const WIDEST: i64 = 64;

// `: width`, where it stands. `at` is the member's token.
pub fn bit_width(
    kinds: &[TokenKind],
    numbers: &[u64],
    w: &[u32],
    v: &[i64],
    c: Cursor,
    at: usize,
    room: u32,
) -> Answer<Option<u32>>
    requires { Room c }
    ensures reads { Leaves (λ m. bit_width (tokens (kind_numbers kinds.now) numbers.now) m (levels (tokens (kind_numbers kinds.now) numbers.now) m room) at) c w.now v.now (reply_by option result) }
    ensures fits { Fits result }
{
    let i = c.at;
    if kind_at(kinds, i) != TokenKind::Colon {
        return Ok((c, None));
    }
    let (e, z) = constant_here(kinds, numbers, w, v, c.moved(i + 1), room)?;
    if z < 0 || WIDEST < z {
        return Err(Refusal {
            reason: Reason::BadWidth,
            at,
        });
    }
    Ok((e, Some(z as u32)))
}

// A constant as a bound.
#[tactic(auto, using(crate::proofs::Signs::bounded))]
fn bound_of(z: i64, at: usize) -> Result<u64, Refusal>
    ensures { answer result ≡ bound_of z at }
{
    u64::try_from(z).map_err(|_| Refusal {
        reason: Reason::BadBound,
        at,
    })
}

// The constant before `]`, as a bound.
fn constant_bound(
    kinds: &[TokenKind],
    numbers: &[u64],
    w: &[u32],
    v: &[i64],
    c: Cursor,
    room: u32,
) -> Answer<Option<u64>>
    requires { Room c }
    ensures { Leaves (λ m. constant_bound (tokens (kind_numbers kinds.now) numbers.now) m (levels (tokens (kind_numbers kinds.now) numbers.now) m room)) c w.now v.now (reply_by option result) }
{
    let at = c.at;
    let (e, z) = constant_here(kinds, numbers, w, v, c, room)?;
    let end = e.past(kinds, TokenKind::CloseBracket)?;
    let n = bound_of(z, at)?;
    Ok((end, Some(n)))
}

// The bound after `[`, none for `[]`.
pub fn array_bound(
    kinds: &[TokenKind],
    numbers: &[u64],
    w: &[u32],
    v: &[i64],
    c: Cursor,
    room: u32,
) -> Answer<Option<u64>>
    requires { Room c }
    ensures { Leaves (λ m. array_bound (tokens (kind_numbers kinds.now) numbers.now) m (levels (tokens (kind_numbers kinds.now) numbers.now) m room)) c w.now v.now (reply_by option result) }
{
    let i = bound_words(kinds, c.at);
    let kind = kind_at(kinds, i);
    if kind == TokenKind::CloseBracket {
        return Ok((c.moved(i + 1), None));
    }
    if kind == TokenKind::Star {
        c.moved(i + 1).past(kinds, TokenKind::CloseBracket)?;
        return Err(Refusal {
            reason: Reason::BadBound,
            at: i,
        });
    }
    constant_bound(kinds, numbers, w, v, c.moved(i), room)
}
