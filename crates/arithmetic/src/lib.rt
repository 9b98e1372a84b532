#![tactic(auto)]
// Arithmetic of constants on i64: the operators that may have no value. Each gives the exact value of the definition, or says why it cannot.
ghost use Rattle.std.specs.Prelude.{◌≡◌, pos, neg_ℤ, nat_abs};
ghost use Rattle.std.proofs.Math.Option.{some};
ghost use Rattle.definition.specs.Range.{exact};
ghost use Rattle.definition.specs.Arithmetic.{times, over, rest, sum, difference, count, shift_left};
ghost use Rattle.arithmetic.specs.Outcome.{answer, reason_of};

use encoding::refusals::Reason;

// The low 32 bits: what is left modulo 2^32.
const LOW_BITS: i64 = 4294967295;

const COUNT_CAP: u64 = 127;
// The last place of a value's bits.
pub const SIGN_PLACE: u32 = 63;

// Why an operator has no value.
#[derive(Clone, Copy, PartialEq, Eq)]
pub enum ArithmeticError {
    OutOfRange,
    DivisionByZero,
}

impl From<ArithmeticError> for Reason {
    ghost from_gives = { λ error reason. reason ≡ reason_of error };

    fn from(error: ArithmeticError) -> Reason {
        match error {
            ArithmeticError::OutOfRange => Reason::OutOfRange,
            ArithmeticError::DivisionByZero => Reason::DivisionByZero,
        }
    }
}

pub fn add(a: i64, b: i64) -> Result<i64, ArithmeticError>
    ensures { answer result ≡ exact (sum a b) }
{
    a.checked_add(b).ok_or(ArithmeticError::OutOfRange)
}

pub fn sub(a: i64, b: i64) -> Result<i64, ArithmeticError>
    ensures { answer result ≡ exact (difference a b) }
{
    a.checked_sub(b).ok_or(ArithmeticError::OutOfRange)
}

pub fn neg(a: i64) -> Result<i64, ArithmeticError>
    ensures { answer result ≡ exact (some (neg_ℤ a)) }
{
    a.checked_neg().ok_or(ArithmeticError::OutOfRange)
}

// A literal's value.
pub fn literal(m: u64) -> Result<i64, ArithmeticError>
    ensures { answer result ≡ exact (some (pos m)) }
{
    i64::try_from(m).map_err(|_| ArithmeticError::OutOfRange)
}

// The absolute value.
pub fn magnitude(a: i64) -> u64
    ensures { result ≡ nat_abs a }
{
    a.unsigned_abs()
}

pub fn mul(a: i64, b: i64) -> Result<i64, ArithmeticError>
    ensures { answer result ≡ exact (times a b) }
{
    a.checked_mul(b).ok_or(ArithmeticError::OutOfRange)
}

// Rounded toward zero.
pub fn div(a: i64, b: i64) -> Result<i64, ArithmeticError>
    ensures { answer result ≡ exact (over a b) }
{
    if b == 0 {
        return Err(ArithmeticError::DivisionByZero);
    }
    a.checked_div(b).ok_or(ArithmeticError::OutOfRange)
}

// With the sign of a.
pub fn rem(a: i64, b: i64) -> Result<i64, ArithmeticError>
    ensures { answer result ≡ exact (rest a b) }
{
    if b == 0 {
        return Err(ArithmeticError::DivisionByZero);
    }
    Ok(a.wrapping_rem(b))
}

// How far a shift goes: the right side modulo 2^32, capped at 127.
pub fn shift_count(b: i64) -> u32
    ensures { result ≡ count b }
{
    ((b & LOW_BITS) as u64).min(COUNT_CAP) as u32
}

pub fn shl(a: i64, b: i64) -> Result<i64, ArithmeticError>
    ensures { answer result ≡ exact (shift_left a b) }
{
    let n = shift_count(b);
    if n < SIGN_PLACE {
        return mul(a, 1 << n);
    }
    if a == 0 {
        return Ok(0);
    }
    if a == -1 && n == SIGN_PLACE {
        return Ok(i64::MIN);
    }
    Err(ArithmeticError::OutOfRange)
}
