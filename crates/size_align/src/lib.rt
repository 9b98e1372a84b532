#![tactic(auto)]
// The size of a row, exact as far as 64 bits go, and its alignment.
ghost use Rattle.std.specs.Prelude.{◌≡◌, min, max};
ghost use Rattle.definition.specs.Limit.{align_levels};
ghost use Rattle.definition.specs.Align.{or_one, larger};
ghost use Rattle.definition.specs.RowKind.{array_kind, typedef_kind, qualified_kind};
ghost use Rattle.size_align.specs.Measure.{among, align, SizeIs, OwnIs, TimesIs, OwnAlignIs, WithinIs, StrictestIs, AlignIs};

use encoding::regions::{WIDES, WORDS};
use encoding::row_kinds::{
    ARRAY_KIND, BOOL_KIND, ENUM_KIND, FLOAT_KIND, INT_KIND, POINTER_KIND, QUALIFIED_KIND,
    STRUCT_KIND, TYPEDEF_KIND, UNION_KIND,
};
use model::Model;
use table::{
    member_row, member_type, row_count, row_extent, row_first, row_flags, row_kind, row_target,
};

// A size in bytes; one above 2^64 - 1 is `Big`.
#[derive(Clone, Copy, PartialEq, Eq)]
pub enum Size {
    Known(u64),
    Big,
    Unknown,
}

// As many of a size as a bound says.
fn times(size: Size, bound: u64) -> Size
    ensures { TimesIs size bound result }
{
    match size {
        Size::Known(s) => match s.checked_mul(bound) {
            Some(n) => Size::Known(n),
            None => Size::Big,
        },
        Size::Big if bound != 0 => Size::Big,
        Size::Big => Size::Known(0),
        Size::Unknown => Size::Unknown,
    }
}

// The size of a row that goes by no other: its kind, flags and 64-bit number say it.
#[tactic(auto, unfolding(crate::specs::Measure::among, crate::specs::Measure::own_size, crate::specs::Measure::told_below))]
fn own_size(m: Model, kind: u32, flags: u32, extent: u64) -> Size
    ensures { OwnIs m kind flags extent result }
{
    match kind {
        INT_KIND | FLOAT_KIND | ENUM_KIND => Size::Known(extent),
        BOOL_KIND => Size::Known(1),
        POINTER_KIND => Size::Known(m.pointer),
        STRUCT_KIND | UNION_KIND if flags != 0 => Size::Known(extent),
        _ => Size::Unknown,
    }
}

// An array, a typedef and a qualified type go by another row.
#[tactic(auto, unfolding(crate::specs::Measure::among))]
fn goes_by_another(kind: u32) -> bool
    ensures { result ≡ among kind array_kind typedef_kind qualified_kind }
{
    matches!(kind, ARRAY_KIND | TYPEDEF_KIND | QUALIFIED_KIND)
}

// The size of a row. One that goes by another goes by a lower one.
pub fn size_of(m: Model, w: &[u32], d: &[u64], n: u32) -> Size
    ensures { SizeIs m n w.now d.now result }
{
    let kind = row_kind(w, n);
    let flags = row_flags(w, n);
    let extent = row_extent(d, n);
    if !goes_by_another(kind) {
        return own_size(m, kind, flags, extent);
    }
    let target = row_target(w, n);
    if n <= target {
        return Size::Unknown;
    }
    let under = size_of(m, w, d, target);
    if kind != ARRAY_KIND {
        return under;
    }
    if flags == 0 {
        return Size::Unknown;
    }
    times(under, extent)
}

// An alignment that isn't there counts 1.
pub fn or_one(a: Option<u64>) -> u64
    ensures { result ≡ or_one (align a) }
{
    a.unwrap_or(1)
}

// What alignments are read from: of a model the alignment of a pointer and the cap, of a table the slices of numbers and how many members it has. The slices have their whole lengths, so that no
// read tests one.
#[derive(Clone, Copy)]
struct Aligning<'a> {
    pointer: u64,
    most: u64,
    w: &'a [u32; WORDS],
    d: &'a [u64; WIDES],
    members: usize,
}

// A scalar's alignment: its size, at least 1 and at most the cap.
fn capped(most: u64, size: u64) -> u64
    ensures { result ≡ min (max size 1) most }
{
    size.max(1).min(most)
}

// The larger of two alignments that may be absent.
fn larger(a: Option<u64>, b: Option<u64>) -> Option<u64>
    ensures { align result ≡ larger (align a) (align b) }
{
    a.max(b)
}

impl Aligning<'_> {
    // The alignment of a row that goes by no other and has no members.
    #[tactic(auto, unfolding(crate::specs::Measure::among, crate::specs::Measure::own_align))]
    fn own_align(&self, kind: u32, n: u32) -> Option<u64>
        ensures { OwnAlignIs self.now kind n result }
    {
        match kind {
            INT_KIND | FLOAT_KIND | ENUM_KIND => {
                let d = self.d;
                let extent = row_extent(d, n);
                Some(capped(self.most, extent))
            }
            BOOL_KIND => Some(1),
            POINTER_KIND => Some(self.pointer),
            _ => None,
        }
    }

    // The alignment of a row as far as `levels` rows deep. It is put into the loop of `strictest`, so that most members need no call.
    #[inline(always)]
    #[cycle(align_within_strictest)]
    fn align_within(&self, n: u32, levels: u32) -> Option<u64>
        ensures { WithinIs self.now levels n result }
    {
        let w = self.w;
        let mut row = n;
        for below in (0..levels).rev() {
            let kind = row_kind(w, row);
            match kind {
                STRUCT_KIND | UNION_KIND => {
                    let best = self.strictest(row, below);
                    return Some(or_one(best));
                }
                ARRAY_KIND | TYPEDEF_KIND | QUALIFIED_KIND => row = row_target(w, row),
                _ => return self.own_align(kind, row),
            }
        }
        None
    }

    // The largest alignment of a row's members: from its first entry on, as many as it has that carry it.
    #[inline(never)]
    #[cycle(align_within_strictest)]
    fn strictest(&self, n: u32, levels: u32) -> Option<u64>
        ensures { StrictestIs self.now levels n result }
    {
        let w = self.w;
        let first = row_first(w, n) as usize;
        let mut left = row_count(w, n);
        let mut best = None;
        for i in first..self.members {
            if left == 0 {
                return best;
            }
            if member_row(w, i) != n {
                continue;
            }
            let ty = member_type(w, i);
            left -= 1;
            let a = self.align_within(ty, levels);
            best = larger(best, a);
        }
        best
    }
}

// The alignment of a row; `members` is how many members the table has. Slices of other lengths hold no table.
pub fn align_of(m: Model, w: &[u32], d: &[u64], members: usize, n: u32) -> Option<u64>
    ensures { AlignIs align_levels m members n w.now d.now result }
{
    let Ok(w) = <&[u32; WORDS]>::try_from(w) else {
        return None;
    };
    let Ok(d) = <&[u64; WIDES]>::try_from(d) else {
        return None;
    };
    let most = m.max_align.max(1);
    let pointer = capped(most, m.pointer);
    let x = Aligning {
        pointer,
        most,
        w,
        d,
        members,
    };
    x.align_within(n, Model::ALIGN_LEVELS)
}
