#![tactic(auto)]
// The enumerators of an enum's body.
ghost use Rattle.std.specs.Prelude.{◌≤◌};
ghost use Rattle.definition.specs.Enumeration.{enumerator};
ghost use Rattle.definition.specs.Reader.{levels};
ghost use Rattle.table.specs.Held.{Held};
ghost use Rattle.table.specs.Reply.{reply, reply_alone, Does, Moves};
ghost use Rattle.naming.specs.Meaning.{tokens};
ghost use Rattle.enumerator_values.specs.Pending.{pending};
ghost use Rattle.enumerators.specs.Under.{Under};
ghost use Rattle.enumerators.specs.Doing.{enumerators_here};

use encoding::refusals::{Reason, Refusal};
use encoding::regions::OPEN_LIST;
use encoding::token_kinds::TokenKind;
use enumerator_values::{counted_on, enumerator_value};
use naming::Tokens;
use table::{Answer, Cursor, push_value};
use words::classes::is_name;

// One enumerator, at a name: its value, which must be in range.
pub fn enumerator(
    ts: &Tokens<'_>,
    w: &mut [u32],
    d: &mut [u64],
    v: &mut [i64],
    c: Cursor,
    first: u32,
    next: Option<i64>,
    room: u32,
) -> Answer<i64>
    requires held { Held c w.old d.old v.old }
    requires first_bound { first ≤ 4096 }
    ensures { Under (λ m. Does (enumerator (tokens ts.now) m (levels (tokens ts.now) m room) first (pending next)) c w.old d.old v.old (reply result) w.new d.new v.new) }
{
    let at = c.at;
    if !is_name(ts.kind(at)) {
        return Err(Refusal {
            reason: Reason::MissingMark,
            at,
        });
    }
    let (e, value) = enumerator_value(ts.kinds, ts.numbers, w, v, c.moved(at + 1), next, room)?;
    let x = value.ok_or(Refusal {
        reason: Reason::OutOfRange,
        at,
    })?;
    let (s, _) = push_value(w, d, v, e, OPEN_LIST + first, ts.name(at), x)?;
    Ok((s, x))
}

// The enumerators of a body, up to its closing brace.
pub fn enumerators(
    ts: &Tokens<'_>,
    w: &mut [u32],
    d: &mut [u64],
    v: &mut [i64],
    c: Cursor,
    room: u32,
) -> Result<Cursor, Refusal>
    requires held { Held c w.old d.old v.old }
    ensures { Under (λ m. Moves (enumerators_here (tokens ts.now) m (levels (tokens ts.now) m room)) c w.old d.old v.old (reply_alone result) w.new d.new v.new) }
{
    let first = c.values as u32;
    let mut s = c;
    let mut next = Some(0);
    loop {
        let at = s.at;
        if ts.kind(at) == TokenKind::CloseBrace {
            return Ok(s.moved(at + 1));
        }
        let (e, x) = enumerator(ts, w, d, v, s, first, next, room)?;
        let after = e.at;
        if ts.kind(after) != TokenKind::Comma {
            return e.past(ts.kinds, TokenKind::CloseBrace);
        }
        s = e.moved(after + 1);
        next = counted_on(x);
    }
}
