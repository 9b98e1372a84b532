#![tactic(auto)]
// The constant of a level of nesting, its enumerators those of the table that the slices hold.
ghost use Rattle.definition.specs.Reader.{levels};
ghost use Rattle.encoding.specs.Kinds.{kind_numbers};
ghost use Rattle.constants.specs.Reading.{tokens};
ghost use Rattle.table.specs.Held.{Room};
ghost use Rattle.table.specs.Reply.{reply};
ghost use Rattle.evaluating.specs.Leaves.{Leaves};

use encoding::refusals::{Reason, Refusal};
use encoding::token_kinds::TokenKind;
use table::{Answer, Cursor};

// The constant here, with `room` levels of nesting left.
pub fn constant_here(
    kinds: &[TokenKind],
    numbers: &[u64],
    w: &[u32],
    v: &[i64],
    c: Cursor,
    room: u32,
) -> Answer<i64>
    requires { Room c }
    ensures { Leaves (λ m. (levels (tokens (kind_numbers kinds.now) numbers.now) m room).constant) c w.now v.now (reply result) }
{
    if room == 0 {
        return Err(Refusal {
            reason: Reason::TooDeep,
            at: c.at,
        });
    }
    constants::constant_here(kinds, numbers, w, v, c)
}
