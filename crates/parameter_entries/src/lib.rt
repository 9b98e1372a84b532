#![tactic(auto)]
// The entries of a parameter list, and its end.
ghost use Rattle.std.specs.Prelude.{◌≤◌};
ghost use Rattle.encoding.specs.Kinds.{kind_number, kind_numbers};
ghost use Rattle.definition.specs.Limit.{max_parameters};
ghost use Rattle.table.specs.Held.{Held};
ghost use Rattle.table.specs.Reply.{reply, Does};
ghost use Rattle.parameter_entries.specs.Parameters.{Closes, VoidList, added_parameter};

use declarator_steps::Step;
use derived_types::adjusted;
use encoding::names::NO_NAME;
use encoding::regions::OPEN_LIST;
use encoding::span::Span;
use encoding::token_kinds::TokenKind;
use table::{Answer, Cursor, kind_at, push_parameter};

// The row of void.
const VOID_ROW: u32 = 0;

// The end of a list of n parameters.
pub fn parameters_end(
    kinds: &[TokenKind],
    c: Cursor,
    varargs: bool,
    first: u32,
    n: u32,
) -> Answer<Step>
    ensures { Closes (kind_numbers kinds.now) varargs first n c result }
{
    let e = c.past(kinds, TokenKind::CloseParen)?;
    let parameters = Span { first, count: n };
    Ok((e, Step::Function(varargs, parameters)))
}

// `( void )` alone is an empty list, and no parameter: it is asked after a parameter was read, the n-th from 0.
pub fn is_void_list(kinds: &[TokenKind], c: Cursor, n: u32, name: u32, ty: u32) -> bool
    ensures { VoidList (kind_numbers kinds.now) n name ty c result }
{
    n == 0 && name == NO_NAME && ty == VOID_ROW && kind_at(kinds, c.at) == TokenKind::CloseParen
}

// A parameter that was read from the token `at` on becomes the next entry of the list whose first is `first`.
pub fn add_parameter(
    w: &mut [u32],
    d: &mut [u64],
    v: &mut [i64],
    c: Cursor,
    first: u32,
    at: usize,
    ty: u32,
    name: u32,
) -> Answer<u32>
    requires held { Held c w.old d.old v.old }
    requires first_le_max_parameters { first ≤ max_parameters }
    ensures { Does (added_parameter first at ty name) c w.old d.old v.old (reply result) w.new d.new v.new }
{
    let (e, n) = adjusted(w, d, v, c, at, ty)?;
    push_parameter(w, d, v, e, OPEN_LIST + first, n, name)
}
