#![tactic(auto)]
// The size of an enum, by its values.
ghost use Rattle.std.specs.Prelude.{◌≡◌, drop};
ghost use Rattle.definition.specs.Enumeration.{all_fit, enum_bytes};
ghost use Rattle.model.specs.Meaning.{model};
ghost use Rattle.enum_sizes.specs.OfValues.{OfValues, fits_four};

use model::Model;
use table::{Cursor, value_at};

// "An enum is 4 bytes if all values lie in -2^31 to 2^32 - 1, else 8."
const LEAST_OF_FOUR: i64 = -2147483648;

const MOST_OF_FOUR: i64 = 4294967295;

const WIDE_BYTES: u64 = 8;

// A value in the range of four bytes.
fn fits_four(z: i64) -> bool
    ensures { result ≡ fits_four z }
{
    (LEAST_OF_FOUR..=MOST_OF_FOUR).contains(&z)
}

// All values from number `first` on lie in -2^31 to 2^32 - 1.
pub fn all_fit(v: &[i64], c: Cursor, first: usize) -> bool
    ensures { OfValues (λ t. all_fit (drop first t.values)) c v.now result }
{
    (first..c.values).all(|i| fits_four(value_at(v, i)))
}

// The size of an enum with these values.
#[tactic(auto, unfolding(definition::specs::Enumeration::enum_bytes))]
pub fn enum_bytes(m: Model, v: &[i64], c: Cursor, first: usize) -> u64
    ensures { OfValues (λ t. enum_bytes (model m) (drop first t.values)) c v.now result }
{
    if all_fit(v, c, first) {
        m.enum_size
    } else {
        WIDE_BYTES
    }
}
