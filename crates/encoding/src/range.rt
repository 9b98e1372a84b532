// The range of values.
ghost use Rattle.std.specs.Prelude.{◌≡◌};
ghost use Rattle.definition.specs.Range.{above_range};

// The least number above every value. The least value, and the greatest, are those of i64.
pub const ABOVE_RANGE: u64 = 9223372036854775808;

// That it is the definition's.
pub fn above_range() -> u64
    ensures { result ≡ above_range }
{
    ABOVE_RANGE
}
