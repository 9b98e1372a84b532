#![tactic(auto, using(table::proofs::Shown::held_next), unfolding(definition::specs::Row::kind_of, definition::specs::Row::target_of, definition::specs::Row::flags_of, definition::specs::Row::row_name, definition::specs::Row::span_of, definition::specs::Row::extent_of))]
// Bodies of structs, unions and enums: a tag gets its body, and a body without a tag is an equal row or the next one.
ghost use Rattle.std.specs.Prelude.{◌≡◌, ◌≤◌};
ghost use Rattle.std.proofs.Math.Option.{some};
ghost use Rattle.definition.specs.Row.{Row, composite, enumeration};
ghost use Rattle.definition.specs.Composite.{add_body};
ghost use Rattle.definition.specs.Enumeration.{add_enum};
ghost use Rattle.encoding.specs.Spans.{span};
ghost use Rattle.table.specs.Held.{Held};
ghost use Rattle.table.specs.Reply.{reply, numbers, Does, DoesAs, Changes, ChangesAs};
ghost use Rattle.body_rows.specs.Bodies.{body_of, body_defined, enum_defined, defined, added};

use encoding::names::NO_NAME;
use encoding::regions::NO_ROW;
use encoding::row_kinds::ENUM_KIND;
use encoding::span::Span;
use named_rows::composite_kind;
use open_lists::{Entries, Members, Values, own, release};
use table::{Answer, Cursor, Numbers, push_row, set_row};
use type_rows::equal_row;

// The numbers of a struct or union with a body.
fn body_row(union: bool, name: u32, size: u64, fields: Span) -> Numbers
    ensures { result ≡ numbers (composite union name (some size) (span fields)) }
{
    Numbers {
        kind: composite_kind(union),
        flags: 1,
        name,
        first: fields.first,
        count: fields.count,
        extent: size,
        ..Numbers::ZERO
    }
}

// The numbers of an enum with values.
fn enum_row(name: u32, bytes: u64, values: Span) -> Numbers
    ensures { result ≡ numbers (enumeration name bytes (span values)) }
{
    Numbers {
        kind: ENUM_KIND,
        name,
        first: values.first,
        count: values.count,
        extent: bytes,
        ..Numbers::ZERO
    }
}

// Row n of a tag becomes a row with entries; those of the one that it was carry row 0.
fn define<E: Entries>(w: &mut [u32], d: &mut [u64], v: &mut [i64], c: Cursor, n: u32, row: Numbers)
    requires held { Held c w.old d.old v.old }
    requires a_row { (x : Row) × (row ≡ numbers x) }
    ensures { ChangesAs numbers row (defined E.kind n) c w.old d.old v.old w.new d.new v.new }
{
    release::<E>(w, c, n);
    set_row(w, d, v, c, n, row);
    own::<E>(w, c, row.first, n);
}

// A row with entries and without a tag: an equal row, and then its entries carry row 0, or a new one.
fn add<E: Entries>(
    w: &mut [u32],
    d: &mut [u64],
    v: &mut [i64],
    c: Cursor,
    row: Numbers,
) -> Answer<u32>
    requires held { Held c w.old d.old v.old }
    requires first { row.first ≤ 4096 }
    requires a_row { (x : Row) × (row ≡ numbers x) }
    ensures { DoesAs numbers row (added E.kind) c w.old d.old v.old (reply result) w.new d.new v.new }
{
    if let Some(n) = equal_row(w, d, v, c, row) {
        own::<E>(w, c, row.first, NO_ROW);
        return Ok((c, n));
    }
    let (e, n) = push_row(w, d, v, c, row)?;
    own::<E>(w, e, row.first, n);
    Ok((e, n))
}

// The tag's row n gets a body; the members of the one that it had carry row 0.
pub fn define_body(
    w: &mut [u32],
    d: &mut [u64],
    v: &mut [i64],
    c: Cursor,
    union: bool,
    name: u32,
    n: u32,
    size: u64,
    fields: Span,
)
    requires { Held c w.old d.old v.old }
    ensures { Changes (body_defined union name n (body_of size fields)) c w.old d.old v.old w.new d.new v.new }
{
    let row = body_row(union, name, size, fields);
    define::<Members>(w, d, v, c, n, row);
}

// The tag's row n gets values; those of the body that it had carry row 0.
pub fn define_enum(
    w: &mut [u32],
    d: &mut [u64],
    v: &mut [i64],
    c: Cursor,
    name: u32,
    n: u32,
    bytes: u64,
    values: Span,
)
    requires { Held c w.old d.old v.old }
    ensures { Changes (enum_defined name n bytes (span values)) c w.old d.old v.old w.new d.new v.new }
{
    let row = enum_row(name, bytes, values);
    define::<Values>(w, d, v, c, n, row);
}

// A body without a tag: an equal row, and then its entries carry row 0, or a new one.
pub fn add_body(
    w: &mut [u32],
    d: &mut [u64],
    v: &mut [i64],
    c: Cursor,
    union: bool,
    size: u64,
    fields: Span,
) -> Answer<u32>
    requires { Held c w.old d.old v.old × (fields.first ≤ 4096) }
    ensures { Does (add_body union (body_of size fields)) c w.old d.old v.old (reply result) w.new d.new v.new }
{
    let row = body_row(union, NO_NAME, size, fields);
    add::<Members>(w, d, v, c, row)
}

// The same of an enum.
pub fn add_enum(
    w: &mut [u32],
    d: &mut [u64],
    v: &mut [i64],
    c: Cursor,
    bytes: u64,
    values: Span,
) -> Answer<u32>
    requires { Held c w.old d.old v.old × (values.first ≤ 4096) }
    ensures { Does (add_enum bytes (span values)) c w.old d.old v.old (reply result) w.new d.new v.new }
{
    let row = enum_row(NO_NAME, bytes, values);
    add::<Values>(w, d, v, c, row)
}
