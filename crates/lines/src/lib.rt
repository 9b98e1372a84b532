#![tactic(auto)]
// The lines of a listing, for whatever table the lent slices hold: one function for each kind of line. The slices are passed one by one: in a struct their
// lengths would not be constants to the compiler, and each read that `size_of` makes would be tested.
ghost use Rattle.std.specs.Prelude.{◌≡◌, length};
ghost use Rattle.definition.specs.Table.{row_at, storage_number};
ghost use Rattle.definition.specs.Listing.{type_line, member_line, value_line, param_line, decl_line};
ghost use Rattle.table.specs.Held.{member_at, value_at, parameter_at, declaration_at, InWords, InWides, InSigneds};
ghost use Rattle.table.specs.Reply.{WordIs};
ghost use Rattle.model.specs.Meaning.{model};
ghost use Rattle.lines.specs.Lines.{NumbersAre, WritesAs};

use line_format::{
    Member, put_declaration, put_details, put_head, put_member, put_param, put_value,
};
use model::Model;
use printing::Writer;
use size_align::{align_of, size_of};
use table::{
    Numbers, declaration_at, member_first_bit, member_name, member_offset, member_type,
    member_width, parameter_name, parameter_type, row_count, row_extent, row_first, row_flags,
    row_kind, row_name, row_target, value_at, value_name,
};

// ---- entries

pub fn member_line(out: &mut Writer<'_>, text: &[u8], w: &[u32], d: &[u64], i: usize)
    ensures { WritesAs (λ t. InWords t w.now × InWides t d.now) (λ t. member_line text.now (member_at t i)) out.old out.new }
{
    let x = Member {
        offset: member_offset(d, i),
        width: member_width(w, i),
        bit: member_first_bit(d, i),
        ty: member_type(w, i),
        name: member_name(w, i),
    };
    put_member(out, text, x);
}

pub fn value_line(out: &mut Writer<'_>, text: &[u8], w: &[u32], v: &[i64], i: usize)
    ensures { WritesAs (λ t. InWords t w.now × InSigneds t v.now) (λ t. value_line text.now (value_at t i)) out.old out.new }
{
    put_value(out, text, value_at(v, i), value_name(w, i));
}

pub fn param_line(out: &mut Writer<'_>, text: &[u8], w: &[u32], i: usize)
    ensures { WritesAs (λ t. InWords t w.now) (λ t. param_line text.now (parameter_at t i)) out.old out.new }
{
    put_param(out, text, parameter_type(w, i), parameter_name(w, i));
}

// The columns of declarations.
pub fn declaration_storage(w: &[u32], i: usize) -> u32
    ensures { WordIs (λ t. storage_number (declaration_at t i).storage) w.now result }
{
    u32::from(declaration_at(w, i).storage)
}

pub fn declaration_type(w: &[u32], i: usize) -> u32
    ensures { WordIs (λ t. (declaration_at t i).type) w.now result }
{
    declaration_at(w, i).ty
}

pub fn declaration_name(w: &[u32], i: usize) -> u32
    ensures { WordIs (λ t. (declaration_at t i).name) w.now result }
{
    declaration_at(w, i).name
}

pub fn decl_line(out: &mut Writer<'_>, text: &[u8], w: &[u32], i: usize)
    ensures { WritesAs (λ t. InWords t w.now) (λ t. decl_line text.now (declaration_at t i)) out.old out.new }
{
    put_declaration(out, text, declaration_at(w, i));
}

// ---- rows

pub fn row_numbers(w: &[u32], d: &[u64], n: u32) -> Numbers
    ensures { NumbersAre n w.now d.now result }
{
    Numbers {
        kind: row_kind(w, n),
        target: row_target(w, n),
        flags: row_flags(w, n),
        name: row_name(w, n),
        first: row_first(w, n),
        count: row_count(w, n),
        extent: row_extent(d, n),
    }
}

// `members` is how many members the table has.
pub fn type_line(
    out: &mut Writer<'_>,
    text: &[u8],
    m: Model,
    w: &[u32],
    d: &[u64],
    members: usize,
    row: u32,
)
    ensures { WritesAs (λ t. InWords t w.now × InWides t d.now × (members ≡ length t.members)) (λ t. type_line text.now (model m) t row (row_at t row)) out.old out.new }
{
    let x = row_numbers(w, d, row);
    let size = size_of(m, w, d, row);
    let align = align_of(m, w, d, members, row);
    put_head(out, row, x.kind, size, align);
    put_details(out, text, x);
    out.end_line();
}
