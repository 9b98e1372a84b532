#![tactic(auto)]
// Where a member stands in its record, and the record's size: the definition's layout on 64-bit numbers. Bits are counted in whole
// bytes as far as that goes, so that what passes 2^64 - 1 is known before it is computed.
ghost use Rattle.std.specs.Prelude.{◌≡◌, ℕ, ◌+◌, ◌*◌, ◌/◌, max};
ghost use Rattle.definition.specs.Table.{Member, Table};
ghost use Rattle.definition.specs.Model.{Model};
ghost use Rattle.lemmas.specs.Options.{option};
ghost use Rattle.definition.specs.Layout.{empty_body, round_up, within, advanced, located, plain_member, zero_field, field_at, bit_field, in_struct, in_union, bytes_taken, record_size};
ghost use Rattle.layout_arithmetic.specs.Outcome.{reason_of, laid_of, none_laid, exact, placed, sized};

use encoding::refusals::Reason;

const BYTE: u64 = 8;
// How many bytes have a bit count that passes u64::MAX.
const ALL_BYTES: u64 = 2305843009213693952;

pub const SIZE_LIMIT: u64 = 4294967296;

// Bits taken, the largest alignment, the widest member of a union.
#[derive(Clone, Copy)]
pub struct Laid {
    pub taken: u64,
    pub align: u64,
    pub widest: u64,
}

// A member's byte offset and first bit, and what has been laid out with it.
#[derive(Clone, Copy)]
pub struct Placed {
    pub offset: u64,
    pub bit: u64,
    pub laid: Laid,
}

// Why a record has no size: it has 2^32 bytes or more, or a number passes 2^64 - 1.
#[derive(Clone, Copy, PartialEq, Eq)]
pub enum SizeError {
    TooLarge,
    Overflow,
}

impl From<SizeError> for Reason {
    ghost from_gives = { λ error reason. reason ≡ reason_of error };

    fn from(error: SizeError) -> Reason {
        match error {
            SizeError::TooLarge => Reason::RecordTooLarge,
            SizeError::Overflow => Reason::LayoutOverflow,
        }
    }
}

// The least multiple of k that is at least v; 0 counts 1. The library's method of this name divides twice.
pub fn round_up(v: u64, k: u64) -> Option<u64>
    ensures { (at : ℕ) → exact result at ≡ within at (round_up v (max k 1)) }
{
    let step = k.max(1);
    let past = v % step;
    if past == 0 {
        return Some(v);
    }
    v.checked_add(step - past)
}

// Bits in whole bytes.
pub fn bytes_of(bits: u64) -> u64
    ensures { result ≡ round_up bits 8 / 8 }
{
    bits.div_ceil(BYTE)
}

// The bits up to the end of `size` bytes that begin at byte `place`.
pub fn end_of(place: u64, size: u64) -> Option<u64>
    ensures { (at : ℕ) → exact result at ≡ within at (8 * (place + size)) }
{
    place.checked_add(size)?.checked_mul(BYTE)
}

// The byte where something of this alignment may begin, after some bits.
pub fn next_place(bits: u64, align: u64) -> Option<u64>
    ensures { (at : ℕ) → exact result at ≡ within at (round_up bits (8 * max align 1) / 8) }
{
    round_up(bytes_of(bits), align)
}

// The byte where the unit begins that holds a bit.
pub fn unit_at(bit: u64, size: u64) -> u64
    ensures { result ≡ bit / (8 * max size 1) * (8 * max size 1) / 8 }
{
    let unit = size.max(1);
    bit / BYTE / unit * unit
}

impl Laid {
    pub fn empty() -> Self
        ensures value { result ≡ none_laid }
        ensures means { laid_of result ≡ empty_body }
    {
        Laid {
            taken: 0,
            align: 1,
            widest: 0,
        }
    }

    // A struct's layout after a member of an alignment that ends at a bit.
    pub fn advanced(self, end: u64, align: u64) -> Laid
        ensures { laid_of result ≡ advanced (laid_of self) end (max align 1) }
    {
        Laid {
            taken: end,
            align: self.align.max(align),
            ..self
        }
    }

    // "a plain member goes to the next multiple of its alignment"
    pub fn plain_member(self, size: u64, align: u64) -> Option<Placed>
        ensures { (e : Member) → placed result e ≡ plain_member e size (max align 1) (laid_of self) }
    {
        let offset = next_place(self.taken, align)?;
        let end = end_of(offset, size)?;
        Some(Placed {
            offset,
            bit: 0,
            laid: self.advanced(end, align),
        })
    }

    // "Width 0 rounds up, makes no field, and its alignment counts in the size."
    pub fn zero_field(self, align: u64) -> Option<Placed>
        ensures { (e : Member) → placed result e ≡ zero_field e (max align 1) (laid_of self) }
    {
        let offset = next_place(self.taken, align)?;
        let bit = end_of(offset, 0)?;
        Some(Placed {
            offset,
            bit,
            laid: self.advanced(bit, align),
        })
    }

    // A bit-field that begins at bit `first`, and at byte `offset`: "its byte offset is that of the unit holding the first bit".
    pub fn field_at(self, width: u64, align: u64, first: u64, offset: u64) -> Option<Placed>
        ensures { (e : Member) (unit : ℕ) → offset ≡ first / unit * unit / 8 → placed result e ≡ field_at e width unit (max align 1) (laid_of self) first }
    {
        let end = first.checked_add(width)?;
        Some(Placed {
            offset,
            bit: first,
            laid: self.advanced(end, align),
        })
    }

    // "A bit-field that would pass its unit (type size, at least 1 byte) moves to its alignment"
    pub fn bit_field(self, width: u64, size: u64, align: u64) -> Option<Placed>
        ensures { (e : Member) → placed result e ≡ bit_field e width (8 * max size 1) (max align 1) (laid_of self) }
    {
        let taken = self.taken;
        let unit = unit_at(taken, size);
        let unit_end = end_of(unit, size.max(1))?;
        if width <= unit_end - taken {
            return self.field_at(width, align, taken, unit);
        }
        let place = next_place(taken, align)?;
        let first = end_of(place, 0)?;
        self.field_at(width, align, first, unit_at(first, size))
    }

    // A member of a struct, with its width where it is a bit-field.
    pub fn in_struct(self, width: Option<u32>, size: u64, align: u64) -> Option<Placed>
        ensures { (e : Member) → option width ≡ e.width → placed result e ≡ in_struct e.width e size (max align 1) (laid_of self) }
    {
        match width {
            None => self.plain_member(size, align),
            Some(0) => self.zero_field(align),
            Some(bits) => self.bit_field(u64::from(bits), size, align),
        }
    }

    // A member of a union begins at 0; one of width 0 makes no field.
    pub fn in_union(self, width: Option<u32>, size: u64, align: u64) -> Placed
        ensures { (e : Member) → option width ≡ e.width → (located e result.offset result.bit, laid_of result.laid) ≡ in_union e size (max align 1) (laid_of self) }
    {
        let widest = match width {
            Some(0) => self.widest,
            _ => self.widest.max(size),
        };
        Placed {
            offset: 0,
            bit: 0,
            laid: Laid {
                align: self.align.max(align),
                widest,
                ..self
            },
        }
    }

    // The bytes that the members take.
    pub fn bytes_taken(self, union: bool) -> Option<u64>
        ensures { (m : Model) (t : Table) (at : ℕ) → exact result at ≡ bytes_taken m t union at (laid_of self) }
    {
        if union {
            return Some(self.widest);
        }
        let bytes = bytes_of(self.taken);
        if ALL_BYTES <= bytes {
            return None;
        }
        Some(bytes)
    }

    // "Struct and union end at a multiple of the largest alignment."
    pub fn record_size(self, union: bool) -> Result<u64, SizeError>
        ensures { (m : Model) (t : Table) (at : ℕ) → sized result at ≡ record_size m t union at (laid_of self) }
    {
        let bytes = self.bytes_taken(union).ok_or(SizeError::Overflow)?;
        let size = round_up(bytes, self.align).ok_or(SizeError::Overflow)?;
        if SIZE_LIMIT <= size {
            return Err(SizeError::TooLarge);
        }
        Ok(size)
    }
}
