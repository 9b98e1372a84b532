#![tactic(auto)]
// The listing of the table that the lent slices hold, written into a lent buffer. What is past the end of the buffer is counted and not written.
ghost use Rattle.std.specs.Prelude.{◌≡◌};
ghost use Rattle.definition.specs.Table.{row_at};
ghost use Rattle.definition.specs.Lent.{flat};
ghost use Rattle.definition.specs.Listing.{sub_lines, type_lines, decl_line, listing};
ghost use Rattle.table.specs.Held.{Stands, Room};
ghost use Rattle.model.specs.Meaning.{model};
ghost use Rattle.lines.specs.Lines.{WritesAs};
ghost use Rattle.listing.specs.Listed.{HoldDeclarations, WritesEntries};

use encoding::row_kinds::{ENUM_KIND, FUNCTION_KIND, STRUCT_KIND, UNION_KIND};
use lines::{decl_line, member_line, param_line, type_line, value_line};
use model::Model;
use printing::Writer;
use table::{Cursor, member_row, parameter_row, row_count, row_first, row_kind, value_row};

// The lines of the entries that carry a row: from its first one on, as many as it has.
fn entry_lines<R: Fn(usize) -> u32, L: Fn(&mut Writer<'_>, usize)>(
    out: &mut Writer<'_>,
    row: u32,
    first: u32,
    count: u32,
    entries: usize,
    row_of: R,
    put_line: L,
)
    requires rows { R.IsAlwaysCallable row_of }
    requires lines { L.IsAlwaysCallable put_line }
    ensures { WritesEntries (R.post row_of) (λ p i q. L.post put_line p i tt q) row count first entries out.old out.new }
{
    let mut left = count;
    for i in first as usize..entries {
        if left == 0 {
            return;
        }
        if row_of(i) == row {
            put_line(out, i);
            left -= 1;
        }
    }
}

fn sub_lines(
    out: &mut Writer<'_>,
    text: &[u8],
    w: &[u32],
    d: &[u64],
    v: &[i64],
    c: Cursor,
    row: u32,
)
    ensures { WritesAs (λ t. Stands t c w.now d.now v.now) (λ t. sub_lines text.now t row (row_at t row)) out.old out.new }
{
    let kind = row_kind(w, row);
    match kind {
        STRUCT_KIND | UNION_KIND => entry_lines(
            out,
            row,
            row_first(w, row),
            row_count(w, row),
            c.members,
            |i| member_row(w, i),
            |out, i| member_line(out, text, w, d, i),
        ),
        ENUM_KIND => entry_lines(
            out,
            row,
            row_first(w, row),
            row_count(w, row),
            c.values,
            |i| value_row(w, i),
            |out, i| value_line(out, text, w, v, i),
        ),
        FUNCTION_KIND => entry_lines(
            out,
            row,
            row_first(w, row),
            row_count(w, row),
            c.parameters,
            |i| parameter_row(w, i),
            |out, i| param_line(out, text, w, i),
        ),
        _ => {}
    }
}

// ---- rows and declarations

fn type_lines(
    out: &mut Writer<'_>,
    text: &[u8],
    m: Model,
    w: &[u32],
    d: &[u64],
    v: &[i64],
    c: Cursor,
)
    requires { Room c }
    ensures { WritesAs (λ t. Stands t c w.now d.now v.now) (λ t. type_lines text.now (model m) t 0 t.rows) out.old out.new }
{
    for row in 0..c.rows as u32 {
        type_line(out, text, m, w, d, c.members, row);
        sub_lines(out, text, w, d, v, c, row);
    }
}

fn decl_lines(out: &mut Writer<'_>, text: &[u8], w: &[u32], declarations: usize)
    ensures { WritesAs (HoldDeclarations w.now declarations) (λ t. flat (decl_line text.now) t.declarations) out.old out.new }
{
    for i in 0..declarations {
        decl_line(out, text, w, i);
    }
}

// The listing of the table, from the writer's place on.
pub fn put_listing(
    out: &mut Writer<'_>,
    text: &[u8],
    m: Model,
    w: &[u32],
    d: &[u64],
    v: &[i64],
    c: Cursor,
)
    requires { Room c }
    ensures { WritesAs (λ t. Stands t c w.now d.now v.now) (λ t. listing text.now (model m) t) out.old out.new }
{
    type_lines(out, text, m, w, d, v, c);
    decl_lines(out, text, w, c.declarations);
}
