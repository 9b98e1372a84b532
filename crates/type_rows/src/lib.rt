#![tactic(auto)]
// Rows equal "as the Rust's types are, first bits not compared", `add` of an unnamed type, and `qualified`.
ghost use Rattle.std.specs.Prelude.{◌≤◌, ◌<◌, length};
ghost use Rattle.definition.specs.Limit.{max_rows};
ghost use Rattle.definition.specs.Row.{qualified, qualifier_bits};
ghost use Rattle.definition.specs.Table.{row_at};
ghost use Rattle.definition.specs.Types.{same_row, equal_row, add, qualify};
ghost use Rattle.table.specs.Held.{Held, Room};
ghost use Rattle.table.specs.Reply.{reply, numbers, Does, DoesAs};
ghost use Rattle.words.specs.Meaning.{qualifiers};
ghost use Rattle.type_rows.specs.Equal.{NumbersSame, EntriesSame, RowSays, RowFinds, MergedBits};

use encoding::regions::{OPEN_LIST, ROW_COLUMNS, ROW_TARGET, WORDS};
use encoding::row_kinds::{ENUM_KIND, FUNCTION_KIND, QUALIFIED_KIND};
use same_entries::{same_members, same_parameters, same_values};
use table::{
    Answer, Cursor, Numbers, push_row, row_count, row_extent, row_first, row_flags, row_kind,
    row_name, row_target,
};
use words::qualifiers::Qualifiers;

// The numbers of a new row are those of row n, but for where their entries stand. Few rows are of its kind, so one after the other: `==` on `Numbers` reads all of each row.
#[tactic(auto, unfolding(definition::specs::Types::same_numbers))]
fn same_numbers(w: &[u32; WORDS], d: &[u64], row: Numbers, n: u32) -> bool
    ensures { NumbersSame row n w.now d.now result }
{
    row.kind == row_kind(w, n)
        && row.target == row_target(w, n)
        && row.flags == row_flags(w, n)
        && row.name == row_name(w, n)
        && row.count == row_count(w, n)
        && row.extent == row_extent(d, n)
}

// The entries of a new row, which carry its list's mark, are those of row n, which has as many.
#[tactic(auto, unfolding(definition::specs::Types::same_entries, definition::specs::Table::mark_of))]
fn same_entries(w: &[u32; WORDS], d: &[u64], v: &[i64], c: Cursor, row: Numbers, n: u32) -> bool
    requires { row.first ≤ 4096 }
    ensures { EntriesSame row n c w.now d.now v.now result }
{
    let mark = OPEN_LIST + row.first;
    let first = row.first as usize;
    let other = row_first(w, n) as usize;
    match row.kind {
        FUNCTION_KIND => same_parameters(w, c.parameters, mark, first, n, other, row.count),
        ENUM_KIND => same_values(w, v, c.values, mark, first, n, other, row.count),
        _ => same_members(w, d, c.members, mark, first, n, other, row.count),
    }
}

#[tactic(auto, unfolding(definition::specs::Types::same_row), using(crate::proofs::Same::same_count))]
fn same_row(w: &[u32; WORDS], d: &[u64], v: &[i64], c: Cursor, row: Numbers, n: u32) -> bool
    requires { row.first ≤ 4096 }
    ensures { RowSays (λ t x. same_row t x n (row_at t n)) row c w.now d.now v.now result }
{
    same_numbers(w, d, row, n) && same_entries(w, d, v, c, row, n)
}

// Row n equals a new one. Few rows are of its kind and target, so these are compared first, where they stand.
fn is_equal(w: &[u32; WORDS], d: &[u64], v: &[i64], c: Cursor, row: Numbers, n: u32) -> bool
    requires n_lt_max_rows { n < max_rows }
    requires first_bound { row.first ≤ 4096 }
    ensures { RowSays (λ t x. same_row t x n (row_at t n)) row c w.now d.now v.now result }
{
    let at = ROW_COLUMNS * n as usize;
    row.kind == w[at] && row.target == w[at + ROW_TARGET] && same_row(w, d, v, c, row, n)
}

// The first row that a new one equals. A slice of another length holds no table.
pub fn equal_row(w: &[u32], d: &[u64], v: &[i64], c: Cursor, row: Numbers) -> Option<u32>
    requires { Room c × (row.first ≤ 4096) }
    ensures { RowFinds (λ t x. equal_row t x 0 t.rows) row c w.now d.now v.now result }
{
    let Ok(w) = <&[u32; WORDS]>::try_from(w) else {
        return None;
    };
    (0..c.rows as u32).find(|n| is_equal(w, d, v, c, row, *n))
}

// `add` of an unnamed type: an equal row, or the next one.
pub fn add_row(w: &mut [u32], d: &mut [u64], v: &mut [i64], c: Cursor, row: Numbers) -> Answer<u32>
    requires { Held c w.old d.old v.old × (row.first ≤ 4096) }
    ensures { DoesAs numbers row add c w.old d.old v.old (reply result) w.new d.new v.new }
{
    match equal_row(w, d, v, c, row) {
        Some(n) => Ok((c, n)),
        None => push_row(w, d, v, c, row),
    }
}

// The qualifiers of row n, which has some, with others: as flags.
#[tactic(auto, using(crate::proofs::Same::qualifiers_are))]
fn merged_bits(w: &[u32], n: u32, q: Qualifiers) -> u32
    ensures { MergedBits (qualifiers q) n w.now result }
{
    let p = Qualifiers::from_bits(u64::from(row_flags(w, n)));
    p.merged(q).bits()
}

// Row n with qualifiers.
#[tactic(auto, unfolding(definition::specs::Row::kind_of, definition::specs::Row::target_of, definition::specs::Row::flags_of, definition::specs::Row::row_name, definition::specs::Row::span_of, definition::specs::Row::extent_of))]
fn add_qualified(
    w: &mut [u32],
    d: &mut [u64],
    v: &mut [i64],
    c: Cursor,
    flags: u32,
    n: u32,
) -> Answer<u32>
    requires { Held c w.old d.old v.old }
    ensures { DoesAs qualifier_bits flags (λ q. add (qualified n q)) c w.old d.old v.old (reply result) w.new d.new v.new }
{
    add_row(
        w,
        d,
        v,
        c,
        Numbers {
            kind: QUALIFIED_KIND,
            target: n,
            flags,
            ..Numbers::ZERO
        },
    )
}

// `qualified`: no wrapper for no qualifier; qualifiers merge rather than nest.
pub fn qualify(
    w: &mut [u32],
    d: &mut [u64],
    v: &mut [i64],
    c: Cursor,
    q: Qualifiers,
    n: u32,
) -> Answer<u32>
    requires { Held c w.old d.old v.old }
    ensures { Does (qualify (qualifiers q) n) c w.old d.old v.old (reply result) w.new d.new v.new }
{
    if q.is_unqualified() {
        return Ok((c, n));
    }
    if row_kind(w, n) == QUALIFIED_KIND {
        return add_qualified(w, d, v, c, merged_bits(w, n, q), row_target(w, n));
    }
    add_qualified(w, d, v, c, q.bits(), n)
}
