#![tactic(auto)]
// The value of an enumerator: its own, or the one after the value before.
ghost use Rattle.std.specs.Prelude.{◌≡◌};
ghost use Rattle.encoding.specs.Kinds.{kind_numbers};
ghost use Rattle.std.proofs.Math.IntN.{suc_ℤ};
ghost use Rattle.definition.specs.Enumeration.{enumerator_value};
ghost use Rattle.definition.specs.Reader.{levels};
ghost use Rattle.constants.specs.Reading.{tokens};
ghost use Rattle.table.specs.Held.{Room};
ghost use Rattle.evaluating.specs.Leaves.{Leaves};
ghost use Rattle.table.specs.Reply.{reply_by};
ghost use Rattle.enumerator_values.specs.Pending.{pending};

use encoding::token_kinds::TokenKind;
use evaluating::constant_here;
use table::{Answer, Cursor, kind_at};

// One more than the value before; after the greatest of all, there is none.
#[tactic(auto, using(crate::proofs::Counted::counted))]
pub fn counted_on(z: i64) -> Option<i64>
    ensures { pending result ≡ suc_ℤ z }
{
    z.checked_add(1)
}

// `= constant`, or the value after the one before.
pub fn enumerator_value(
    kinds: &[TokenKind],
    numbers: &[u64],
    w: &[u32],
    v: &[i64],
    c: Cursor,
    next: Option<i64>,
    room: u32,
) -> Answer<Option<i64>>
    requires { Room c }
    ensures { Leaves (λ m. enumerator_value (tokens (kind_numbers kinds.now) numbers.now) m (levels (tokens (kind_numbers kinds.now) numbers.now) m room) (pending next)) c w.now v.now (reply_by pending result) }
{
    let at = c.at;
    if kind_at(kinds, at) != TokenKind::Equals {
        return Ok((c, next));
    }
    let (e, z) = constant_here(kinds, numbers, w, v, c.moved(at + 1), room)?;
    Ok((e, Some(z)))
}
