#![tactic(auto)]
// Literals: the value of a number, and of a character constant.
ghost use Rattle.std.specs.Prelude.{◌≡◌, ◌≤◌, ◌<◌, IfSome};
ghost use Rattle.definition.specs.Class.{among};
ghost use Rattle.definition.specs.Number.{digit_value, suffix_bytes, body_length, digits_value, body_value, number_value};
ghost use Rattle.encoding.specs.Refusals.{answer};
ghost use Rattle.literals.specs.Shown.{digit, with_digit};

use encoding::range::ABOVE_RANGE;
use encoding::refusals::{Reason, Refusal};

// The value of a digit.
#[tactic(auto, using(std::proofs::lemmas::Bool::Decides::nat_tests), unfolding(definition::specs::Number::digit_value))]
pub fn digit_value(b: u32) -> Option<u32>
    ensures value { digit result ≡ digit_value b }
    ensures base { IfSome result (λ d. d < 16) }
{
    char::from_u32(b)?.to_digit(16)
}

// A byte of a suffix.
#[tactic(auto, unfolding(definition::specs::Class::among, definition::specs::Number::suffix_bytes, definition::specs::Text::bytes))]
pub fn is_suffix(b: u32) -> bool
    ensures { result ≡ among b suffix_bytes }
{
    matches!(u8::try_from(b), Ok(b'u' | b'U' | b'l' | b'L' | b'z' | b'Z'))
}

// How many bytes of a word are left without its suffix.
pub fn body_length(word: &[u8]) -> usize
    ensures { result ≡ body_length word.now }
{
    match word.iter().rposition(|b| !is_suffix(u32::from(*b))) {
        Some(last) => last + 1,
        None => 0,
    }
}

// One digit more, while the value is in range.
pub fn add_digit(v: Option<u64>, base: u64, d: u64) -> Option<u64>
    ensures { result ≡ with_digit v base d }
{
    v?.checked_mul(base)?
        .checked_add(d)
        .filter(|v| *v < ABOVE_RANGE)
}

// The value of digits to a base.
#[tactic(auto, using(crate::proofs::Digits::digits_bad), unfolding(definition::specs::Number::digits_value, definition::specs::Number::are_digits, definition::specs::Number::value_from, definition::specs::Number::in_range))]
pub fn digits_value(digits: &[u8], base: u32, at: usize) -> Result<u64, Refusal>
    requires { (0 < base) × (base ≤ 16) }
    ensures { answer result ≡ digits_value at base digits.now }
{
    if digits.is_empty() {
        return Err(Refusal {
            reason: Reason::BadLiteral,
            at,
        });
    }
    let mut v = Some(0);
    for b in digits {
        match digit_value(u32::from(*b)) {
            Some(d) if d < base => v = add_digit(v, u64::from(base), u64::from(d)),
            _ => {
                return Err(Refusal {
                    reason: Reason::BadLiteral,
                    at,
                });
            }
        }
    }
    v.ok_or(Refusal {
        reason: Reason::OutOfRange,
        at,
    })
}

// The value of a number without its suffix.
#[tactic(auto, unfolding(definition::specs::Number::body_value, definition::specs::Number::base_of, definition::specs::Class::among, definition::specs::Text::bytes))]
pub fn body_value(body: &[u8], at: usize) -> Result<u64, Refusal>
    ensures { answer result ≡ body_value at body.now }
{
    match body {
        [b'0', b'x' | b'X', digits @ ..] => digits_value(digits, 16, at),
        [b'0', b'b' | b'B', digits @ ..] => digits_value(digits, 2, at),
        [b'0', _, ..] => digits_value(&body[1..], 8, at),
        _ => digits_value(body, 10, at),
    }
}

// The value of a number.
#[tactic(auto, unfolding(definition::specs::Number::number_value))]
pub fn number_value(word: &[u8], at: usize) -> Result<u64, Refusal>
    ensures { answer result ≡ number_value at word.now }
{
    let n = body_length(word);
    body_value(&word[..n], at)
}
