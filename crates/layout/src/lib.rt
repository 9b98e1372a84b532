#![tactic(auto)]
// Where each member of a body stands, and the body's size. The members are stored as they are laid out: sizes and alignments do not
// depend on where members stand.
ghost use Rattle.std.specs.Prelude.{◌≡◌, length};
ghost use Rattle.definition.specs.Layout.{is_unsized, layout};
ghost use Rattle.definition.specs.Table.{row_at};
ghost use Rattle.definition.specs.Types.{resolve};
ghost use Rattle.definition.specs.Region.{wides_length};
ghost use Rattle.table.specs.Held.{Room};
ghost use Rattle.named_rows.specs.Finds.{Says};
ghost use Rattle.model.specs.Meaning.{model};
ghost use Rattle.layout.specs.Lays.{placing, sized, LastIs, BytesAre, PlaceIs, placed_from, LaysOut};

use encoding::refusals::{Reason, Refusal};
use encoding::row_kinds::ARRAY_KIND;
use layout_arithmetic::{Laid, Placed};
use model::Model;
use named_rows::resolve;
use size_align::{Size, align_of, or_one, size_of};
use table::{
    Cursor, member_offset, member_row, member_type, member_width, row_flags, row_kind,
    set_member_place,
};

// No entry from i on carries the mark.
fn is_last(w: &[u32], members: usize, mark: usize, i: usize) -> bool
    ensures { LastIs mark members i w.now result }
{
    (i..members).all(|k| member_row(w, k) as usize != mark)
}

// "An unsized array is one without a bound", typedefs and qualifiers aside.
#[tactic(auto, unfolding(definition::specs::Layout::is_unsized))]
fn is_unsized(w: &[u32], ty: u32) -> bool
    ensures { Says (λ t. is_unsized (row_at t (resolve t ty))) w.now result }
{
    let n = resolve(w, ty);
    row_kind(w, n) == ARRAY_KIND && row_flags(w, n) == 0
}

// "member size unknown, unless an unsized array is last"; `at` is the member's place in the text.
fn member_size(
    m: Model,
    w: &[u32],
    d: &[u64],
    ty: u32,
    last: bool,
    at: usize,
) -> Result<u64, Refusal>
    ensures { BytesAre m ty last at w.now d.now result }
{
    match size_of(m, w, d, ty) {
        Size::Known(n) => Ok(n),
        Size::Big => Err(Refusal {
            reason: Reason::LayoutOverflow,
            at,
        }),
        Size::Unknown => {
            if last && is_unsized(w, ty) {
                Ok(0)
            } else {
                Err(Refusal {
                    reason: Reason::UnknownSize,
                    at,
                })
            }
        }
    }
}

// Where member i stands after what has been laid out; `last` where no other follows. Until then its offset is its place in the text.
fn place_member(
    m: Model,
    w: &[u32],
    d: &[u64],
    members: usize,
    union: bool,
    last: bool,
    i: usize,
    l: Laid,
) -> Result<Placed, Refusal>
    ensures { PlaceIs m members union last i l w.now d.now result }
{
    let at = member_offset(d, i) as usize;
    let ty = member_type(w, i);
    let size = member_size(m, w, d, ty, last, at)?;
    let align = or_one(align_of(m, w, d, members, ty));
    let width = member_width(w, i);
    if union {
        return Ok(l.in_union(width, size, align));
    }
    l.in_struct(width, size, align).ok_or(Refusal {
        reason: Reason::LayoutOverflow,
        at,
    })
}

// The members from number `first` on that carry its mark, each stored where it stands.
fn place_all(
    m: Model,
    w: &[u32],
    d: &mut [u64],
    c: Cursor,
    union: bool,
    first: u32,
) -> Result<Laid, Refusal>
    requires { (length d.old ≡ wides_length) × Room c }
    ensures { LaysOut (λ t. placed_from (model m) t union first) c w.now d.old (placing c result) d.new }
{
    let members = c.members;
    let start = first as usize;
    let mark = Model::MAX_ROWS + start;
    let mut l = Laid::empty();
    for i in start..members {
        if member_row(w, i) as usize != mark {
            continue;
        }
        let last = is_last(w, members, mark, i + 1);
        let p = place_member(m, w, d, members, union, last, i, l)?;
        set_member_place(d, c, i, p.offset, p.bit);
        l = p.laid;
    }
    Ok(l)
}

// The layout of the body whose first entry is `first`; `at` is its tag's place.
pub fn layout(
    m: Model,
    w: &[u32],
    d: &mut [u64],
    c: Cursor,
    union: bool,
    first: u32,
    at: usize,
) -> Result<u64, Refusal>
    requires { (length d.old ≡ wides_length) × Room c }
    ensures { LaysOut (λ t. layout (model m) t union first at) c w.now d.old (sized c result) d.new }
{
    let l = place_all(m, w, d, c, union, first)?;
    l.record_size(union).map_err(|e| Refusal {
        reason: Reason::from(e),
        at,
    })
}
