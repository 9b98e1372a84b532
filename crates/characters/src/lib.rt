#![tactic(auto)]
// Character constants.
ghost use Rattle.std.specs.Prelude.{◌≡◌, ◌+◌, ◌≤◌, ◌<◌, length, IfOk, IfSome};
ghost use Rattle.definition.specs.Text.{byte_at};
ghost use Rattle.definition.specs.Number.{digit_value};
ghost use Rattle.definition.specs.Character.{escaped, hex_byte, escape, one_byte, character_at};
ghost use Rattle.encoding.specs.Refusals.{answer_by};
ghost use Rattle.literals.specs.Shown.{digit, read};
ghost use Rattle.characters.specs.Reads.{Goes};

use encoding::refusals::{Reason, Refusal};
use literals::{add_digit, digit_value};

// From here on one digit more makes the value of \x too large: 2^127 or more.
const HEX_FULL: u128 = 1 << 123;

// What a byte after a backslash stands for.
#[tactic(auto, unfolding(definition::specs::Character::escaped))]
pub fn escaped(b: u8) -> u8
    ensures { result ≡ escaped b }
{
    match b {
        b'n' => b'\n',
        b't' => b'\t',
        b'r' => b'\r',
        b'0' => b'\0',
        b'a' => b'\x07',
        b'b' => b'\x08',
        b'f' => b'\x0C',
        b'v' => b'\x0B',
        _ => b,
    }
}

// The value of the hexadecimal digit that stands at an offset.
#[tactic(auto, using(scan::proofs::Going::inside, crate::proofs::Hex::no_digit))]
fn digit_at(text: &[u8], at: usize) -> Option<u32>
    ensures value { digit result ≡ digit_value (byte_at text.now at) }
    ensures base { IfSome result (λ d. d < 16) }
{
    digit_value(u32::from(*text.get(at)?))
}

// The byte that \x stands for, with its digits from an offset on.
#[tactic(auto, using(crate::proofs::Hex::hex))]
pub fn hex_byte(text: &[u8], start: usize, at: usize) -> Result<(u8, usize), Refusal>
    requires { at ≤ length text.now }
    ensures value { answer_by read result ≡ hex_byte text.now start at }
    ensures goes { Goes at (length text.now) result }
{
    let refusal = Refusal {
        reason: Reason::BadLiteral,
        at: start,
    };
    let mut v: u128 = 0;
    let mut n = 0;
    while let Some(d) = digit_at(text, at + n) {
        if HEX_FULL <= v {
            return Err(refusal);
        }
        v = v * 16 + u128::from(d);
        n += 1;
    }
    if n == 0 {
        return Err(refusal);
    }
    Ok(((v % 256) as u8, at + n))
}

// The byte that an escape stands for.
#[tactic(auto, unfolding(definition::specs::Character::escape))]
pub fn escape(text: &[u8], start: usize, at: usize) -> Result<(u8, usize), Refusal>
    requires { at < length text.now }
    ensures value { answer_by read result ≡ escape text.now start at }
    ensures goes { Goes (at + 1) (length text.now) result }
{
    match text.get(at + 1) {
        None => Err(Refusal {
            reason: Reason::BadLiteral,
            at: start,
        }),
        Some(b'x') => hex_byte(text, start, at + 2),
        Some(b) => Ok((escaped(*b), at + 2)),
    }
}

// One byte of a constant.
#[tactic(auto, unfolding(definition::specs::Character::one_byte))]
pub fn one_byte(text: &[u8], start: usize, at: usize) -> Result<(u8, usize), Refusal>
    requires { at < length text.now }
    ensures value { answer_by read result ≡ one_byte text.now start at }
    ensures goes { Goes (at + 1) (length text.now) result }
{
    match text[at] {
        b'\\' => escape(text, start, at),
        b => Ok((b, at + 1)),
    }
}

// The constant whose opening quote stands at an offset.
#[tactic(auto, using(crate::proofs::Constant::constant))]
pub fn character(text: &[u8], start: usize) -> Result<(u64, usize), Refusal>
    requires { start < length text.now }
    ensures value { answer_by read result ≡ character_at text.now start }
    ensures goes { IfOk result (λ r. start < r.1) }
{
    let mut i = start + 1;
    if let Some(b'\'') = text.get(i) {
        return Err(Refusal {
            reason: Reason::BadLiteral,
            at: start,
        });
    }
    let mut v = Some(0);
    while i < text.len() {
        if text[i] == b'\'' {
            let value = v.ok_or(Refusal {
                reason: Reason::OutOfRange,
                at: start,
            })?;
            return Ok((value, i + 1));
        }
        let (b, next) = one_byte(text, start, i)?;
        v = add_digit(v, 256, u64::from(b));
        i = next;
    }
    Err(Refusal {
        reason: Reason::BadLiteral,
        at: start,
    })
}
