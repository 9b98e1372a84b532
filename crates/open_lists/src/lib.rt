#![tactic(auto)]
// Entries get their row. While a list is read its entries carry the mark of the list; then they get the row that it is of, or row 0.
ghost use Rattle.std.specs.Prelude.{◌≡◌, length, get_or, set, drop};
ghost use Rattle.definition.specs.Table.{Member, Value, Parameter, row_at, with_members, with_parameters, mark_of};
ghost use Rattle.definition.specs.Row.{span_of};
ghost use Rattle.definition.specs.Composite.{fields_only, how_many_carry};
ghost use Rattle.definition.specs.Declarator.{own_parameters};
ghost use Rattle.definition.specs.Region.{words_length};
ghost use Rattle.table.specs.Held.{Room};
ghost use Rattle.table.specs.Store.{ChangesWords};
ghost use Rattle.open_lists.specs.Owning.{Kind, members, zero_widths, values, parameters, rerowed, released, Tells, Counted};

use encoding::regions::{NO_ROW, OPEN_LIST};
use table::{
    Cursor, member_row, member_width, parameter_row, row_count, set_member_row, set_parameter_row,
    set_value_row, value_row,
};

// ---- kinds of entries

// A kind of entries: how many there are, and the row that each carries.
pub trait Entries {
    ghost Entry: { Type 0 };

    ghost kind: { Kind Entry };

    fn count(c: Cursor) -> usize
        ensures { result ≡ kind.count c };

    // Entry i carries a row.
    fn carries(w: &[u32], i: usize, row: u32) -> bool
        ensures { Tells (λ t. kind.carries (get_or (kind.of t) i kind.blank) row) w.now result };

    fn set_row(w: &mut [u32], c: Cursor, i: usize, row: u32)
        requires { (length w.old ≡ words_length) × Room c }
        ensures { ChangesWords (λ t. kind.with t (set (kind.of t) i (kind.with_row (get_or (kind.of t) i kind.blank) row))) c w.old w.new };
}

pub struct Members;

impl Entries for Members {
    ghost Entry = { Member };

    ghost kind = { members };

    fn count(c: Cursor) -> usize {
        c.members
    }

    fn carries(w: &[u32], i: usize, row: u32) -> bool {
        member_row(w, i) == row
    }

    fn set_row(w: &mut [u32], c: Cursor, i: usize, row: u32) {
        set_member_row(w, c, i, row);
    }
}

// Members of width 0, which are no fields; the others count as carrying no row.
pub struct ZeroWidths;

impl Entries for ZeroWidths {
    ghost Entry = { Member };

    ghost kind = { zero_widths };

    fn count(c: Cursor) -> usize {
        c.members
    }

    fn carries(w: &[u32], i: usize, row: u32) -> bool {
        member_row(w, i) == row && matches!(member_width(w, i), Some(0))
    }

    fn set_row(w: &mut [u32], c: Cursor, i: usize, row: u32) {
        set_member_row(w, c, i, row);
    }
}

pub struct Values;

impl Entries for Values {
    ghost Entry = { Value };

    ghost kind = { values };

    fn count(c: Cursor) -> usize {
        c.values
    }

    fn carries(w: &[u32], i: usize, row: u32) -> bool {
        value_row(w, i) == row
    }

    fn set_row(w: &mut [u32], c: Cursor, i: usize, row: u32) {
        set_value_row(w, c, i, row);
    }
}

pub struct Parameters;

impl Entries for Parameters {
    ghost Entry = { Parameter };

    ghost kind = { parameters };

    fn count(c: Cursor) -> usize {
        c.parameters
    }

    fn carries(w: &[u32], i: usize, row: u32) -> bool {
        parameter_row(w, i) == row
    }

    fn set_row(w: &mut [u32], c: Cursor, i: usize, row: u32) {
        set_parameter_row(w, c, i, row);
    }
}

// The entries, from a number on, that carry a row get another.
fn rerow<E: Entries>(w: &mut [u32], c: Cursor, from: usize, old: u32, row: u32)
    requires { (length w.old ≡ words_length) × Room c }
    ensures { ChangesWords (rerowed E.kind from old row) c w.old w.new }
{
    for i in from..E::count(c) {
        if E::carries(w, i, old) {
            E::set_row(w, c, i, row);
        }
    }
}

// The entries of a list, from number `first` on, get its row.
pub fn own<E: Entries>(w: &mut [u32], c: Cursor, first: u32, row: u32)
    requires { (length w.old ≡ words_length) × Room c }
    ensures { ChangesWords (rerowed E.kind first (mark_of first) row) c w.old w.new }
{
    let from = first as usize;
    if from < E::count(c) {
        rerow::<E>(w, c, from, OPEN_LIST + first, row);
    }
}

// The entries of row n, whose body is replaced, get row 0.
pub fn release<E: Entries>(w: &mut [u32], c: Cursor, n: u32)
    requires { (length w.old ≡ words_length) × Room c }
    ensures { ChangesWords (λ t. released E.kind n (span_of (row_at t n)).count t) c w.old w.new }
{
    if row_count(w, n) != 0 {
        rerow::<E>(w, c, 0, n, NO_ROW);
    }
}

// ---- what the definition names

// Of the members of a body, from number `first` on, those of width 0 get row 0: they are no fields.
#[tactic(auto, unfolding(definition::specs::Composite::fields_only))]
pub fn fields_only(w: &mut [u32], c: Cursor, first: u32)
    requires { (length w.old ≡ words_length) × Room c }
    ensures { ChangesWords (λ t. with_members t (fields_only first t.members)) c w.old w.new }
{
    own::<ZeroWidths>(w, c, first, NO_ROW);
}

// How many members, from number `first` on, are fields of its body.
pub fn field_count(w: &[u32], c: Cursor, first: u32) -> u32
    requires { Room c }
    ensures { Counted (λ t. how_many_carry (mark_of first) (drop first t.members)) c w.now result }
{
    let from = first as usize;
    if c.members <= from {
        return 0;
    }
    let mark = OPEN_LIST + first;
    (from..c.members)
        .filter(|i| member_row(w, *i) == mark)
        .count() as u32
}

// The parameters of a list, from number `first` on, get its row.
#[tactic(auto, unfolding(definition::specs::Declarator::own_parameters))]
pub fn own_parameters(w: &mut [u32], c: Cursor, first: u32, row: u32)
    requires { (length w.old ≡ words_length) × Room c }
    ensures { ChangesWords (λ t. with_parameters t (own_parameters first row t.parameters)) c w.old w.new }
{
    own::<Parameters>(w, c, first, row);
}
