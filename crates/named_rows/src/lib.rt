#![tactic(auto)]
// Rows looked through and found by name.
ghost use Rattle.std.specs.Prelude.{◌≡◌, ◌&&◌, ◌≤◌, ◌<◌, eqb, length};
ghost use Rattle.definition.specs.Limit.{max_rows};
ghost use Rattle.definition.specs.Row.{composite_kind, kind_of, row_name};
ghost use Rattle.definition.specs.Table.{row_at};
ghost use Rattle.definition.specs.Types.{row_named, typedef_row, is_alias, resolve, resolved_kind};
ghost use Rattle.definition.specs.Composite.{tag_row};
ghost use Rattle.definition.specs.Enumeration.{enum_tag_row};
ghost use Rattle.definition.specs.Region.{members_at};
ghost use Rattle.table.specs.Held.{Held, Room};
ghost use Rattle.table.specs.Reply.{reply, numbers, Does, DoesAs, WordIs};
ghost use Rattle.named_rows.specs.Finds.{Says, Finds, first_tag_row};

use encoding::regions::{ROW_COLUMNS, ROW_NAME, WORDS};
use encoding::row_kinds::{ENUM_KIND, QUALIFIED_KIND, STRUCT_KIND, TYPEDEF_KIND, UNION_KIND};
use model::Model;
use table::{Answer, Cursor, Numbers, first_named, push_row, row_kind, row_target};

// A name for a type, or a type with qualifiers.
pub fn is_alias(w: &[u32], n: u32) -> bool
    ensures { Says (λ t. is_alias (row_at t n)) w.now result }
{
    let kind = row_kind(w, n);
    kind == TYPEDEF_KIND || kind == QUALIFIED_KIND
}

// The row that a row stands for, typedefs and qualifiers aside.
pub fn resolve(w: &[u32], n: u32) -> u32
    ensures { WordIs (λ t. resolve t n) w.now result }
{
    let mut row = n;
    for _ in 0..Model::MAX_RESOLVE {
        if !is_alias(w, row) {
            return row;
        }
        row = row_target(w, row);
    }
    row
}

// Its kind.
pub fn resolved_kind(w: &[u32], n: u32) -> u32
    ensures { WordIs (λ t. resolved_kind t n) w.now result }
{
    row_kind(w, resolve(w, n))
}

// Row i is of a kind and a name, in a slice that has all rows. Few rows have the name, so it is compared first.
fn is_named(w: &[u32], i: usize, kind: u32, name: u32) -> bool
    requires i_lt_max_rows { i < max_rows }
    requires members_at_in_bounds { members_at ≤ length w.now }
    ensures { Says (λ t. eqb (kind_of (row_at t i)) kind && eqb (row_name (row_at t i)) name) w.now result }
{
    let at = ROW_COLUMNS * i;
    w[at + ROW_NAME] == name && w[at] == kind
}

// The first row of a kind and a name, from the one on that the index has. A slice of another length holds no table.
pub fn row_named(w: &[u32], c: Cursor, kind: u32, name: u32) -> Option<u32>
    requires { Room c }
    ensures { Finds (λ t. row_named kind name 0 t.rows) c w.now result }
{
    if w.len() != WORDS {
        return None;
    }
    let first = first_named(w, kind, name)?;
    let i = (first..c.rows).find(|i| is_named(w, *i, kind, name))?;
    Some(i as u32)
}

pub fn typedef_row(w: &[u32], c: Cursor, name: u32) -> Option<u32>
    requires { Room c }
    ensures { Finds (λ t. typedef_row t name) c w.now result }
{
    row_named(w, c, TYPEDEF_KIND, name)
}

pub fn composite_kind(union: bool) -> u32
    ensures { result ≡ composite_kind union }
{
    if union { UNION_KIND } else { STRUCT_KIND }
}

// The row that has the kind and the name of a tag's row, or that row as a new one.
fn first_tag_row(
    w: &mut [u32],
    d: &mut [u64],
    v: &mut [i64],
    c: Cursor,
    row: Numbers,
) -> Answer<u32>
    requires { Held c w.old d.old v.old }
    ensures { DoesAs numbers row first_tag_row c w.old d.old v.old (reply result) w.new d.new v.new }
{
    match row_named(w, c, row.kind, row.name) {
        Some(n) => Ok((c, n)),
        None => push_row(w, d, v, c, row),
    }
}

// The row of a struct's or union's tag: the one that it has, or a new one without a body.
pub fn tag_row(
    w: &mut [u32],
    d: &mut [u64],
    v: &mut [i64],
    c: Cursor,
    union: bool,
    name: u32,
) -> Answer<u32>
    requires { Held c w.old d.old v.old }
    ensures { Does (tag_row union name) c w.old d.old v.old (reply result) w.new d.new v.new }
{
    let kind = composite_kind(union);
    first_tag_row(
        w,
        d,
        v,
        c,
        Numbers {
            kind,
            name,
            ..Numbers::ZERO
        },
    )
}

// The row of an enum's tag: the one that it has, or a new one without values.
pub fn enum_tag_row(
    w: &mut [u32],
    d: &mut [u64],
    v: &mut [i64],
    c: Cursor,
    bytes: u64,
    name: u32,
) -> Answer<u32>
    requires { Held c w.old d.old v.old }
    ensures { Does (enum_tag_row bytes name) c w.old d.old v.old (reply result) w.new d.new v.new }
{
    let row = Numbers {
        kind: ENUM_KIND,
        name,
        extent: bytes,
        ..Numbers::ZERO
    };
    first_tag_row(w, d, v, c, row)
}
