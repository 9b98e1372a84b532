#![tactic(auto)]
// Operators and prefixes by the kind of their token: the tables of the definition.
ghost use Rattle.std.specs.Prelude.{◌≡◌};
ghost use Rattle.std.proofs.Math.Option.{some};
ghost use Rattle.definition.specs.Range.{exact};
ghost use Rattle.definition.specs.Arithmetic.{precedence, operator, is_prefix, prefixed};
ghost use Rattle.encoding.specs.Kinds.{kind_number};
ghost use Rattle.arithmetic.specs.Outcome.{answer};

use arithmetic::{ArithmeticError, SIGN_PLACE};
use encoding::token_kinds::TokenKind;

// How tightly an operator binds; 0 for what is none.
#[tactic(auto, unfolding(definition::specs::Arithmetic::precedence, definition::specs::Arithmetic::operator_in, definition::specs::Arithmetic::operators))]
pub fn precedence_of(kind: TokenKind) -> u32
    ensures { result ≡ precedence (kind_number kind) }
{
    match kind {
        TokenKind::OrOr => 1,
        TokenKind::AndAnd => 2,
        TokenKind::Bar => 3,
        TokenKind::Caret => 4,
        TokenKind::Ampersand => 5,
        TokenKind::EqualEqual | TokenKind::NotEqual => 6,
        TokenKind::Less | TokenKind::Greater | TokenKind::LessEqual | TokenKind::GreaterEqual => 7,
        TokenKind::ShiftLeft | TokenKind::ShiftRight => 8,
        TokenKind::Plus | TokenKind::Minus => 9,
        TokenKind::Star | TokenKind::Slash | TokenKind::Percent => 10,
        _ => 0,
    }
}

// The value of an operator between two sides; the left side for what is none.
#[tactic(auto, using(arithmetic::proofs::Told::tests), unfolding(definition::specs::Arithmetic::operator, definition::specs::Arithmetic::operator_in, definition::specs::Arithmetic::operators, definition::specs::Arithmetic::left_side, definition::specs::Arithmetic::either, definition::specs::Arithmetic::both, definition::specs::Arithmetic::bits_or, definition::specs::Arithmetic::bits_xor, definition::specs::Arithmetic::bits_and, definition::specs::Arithmetic::equal, definition::specs::Arithmetic::unequal, definition::specs::Arithmetic::less, definition::specs::Arithmetic::greater, definition::specs::Arithmetic::at_most, definition::specs::Arithmetic::at_least, definition::specs::Arithmetic::shift_right))]
pub fn operate(kind: TokenKind, a: i64, b: i64) -> Result<i64, ArithmeticError>
    ensures { answer result ≡ exact (operator (kind_number kind) a b) }
{
    match kind {
        TokenKind::OrOr => Ok(i64::from((a != 0) | (b != 0))),
        TokenKind::AndAnd => Ok(i64::from((a != 0) & (b != 0))),
        TokenKind::Bar => Ok(a | b),
        TokenKind::Caret => Ok(a ^ b),
        TokenKind::Ampersand => Ok(a & b),
        TokenKind::EqualEqual => Ok(i64::from(a == b)),
        TokenKind::NotEqual => Ok(i64::from(a != b)),
        TokenKind::Less => Ok(i64::from(a < b)),
        TokenKind::Greater => Ok(i64::from(a > b)),
        TokenKind::LessEqual => Ok(i64::from(a <= b)),
        TokenKind::GreaterEqual => Ok(i64::from(a >= b)),
        TokenKind::ShiftLeft => arithmetic::shl(a, b),
        TokenKind::ShiftRight => Ok(a >> arithmetic::shift_count(b).min(SIGN_PLACE)),
        TokenKind::Plus => arithmetic::add(a, b),
        TokenKind::Minus => arithmetic::sub(a, b),
        TokenKind::Star => arithmetic::mul(a, b),
        TokenKind::Slash => arithmetic::div(a, b),
        TokenKind::Percent => arithmetic::rem(a, b),
        _ => Ok(a),
    }
}

#[tactic(auto, unfolding(definition::specs::Arithmetic::is_prefix, definition::specs::Arithmetic::prefix_in, definition::specs::Arithmetic::prefixes))]
pub fn is_prefix(kind: TokenKind) -> bool
    ensures { result ≡ is_prefix (kind_number kind) }
{
    matches!(
        kind,
        TokenKind::Minus | TokenKind::Plus | TokenKind::Tilde | TokenKind::Bang
    )
}

// The value of a prefix before an operand; the operand as it is for `+`, and for what is none.
#[tactic(auto, using(arithmetic::proofs::Told::tests), unfolding(definition::specs::Arithmetic::prefixed, definition::specs::Arithmetic::prefix_in, definition::specs::Arithmetic::prefixes, definition::specs::Arithmetic::unchanged, definition::specs::Arithmetic::is_false))]
pub fn prefix(kind: TokenKind, a: i64) -> Result<i64, ArithmeticError>
    ensures { answer result ≡ exact (some (prefixed (kind_number kind) a)) }
{
    match kind {
        TokenKind::Minus => arithmetic::neg(a),
        TokenKind::Tilde => Ok(!a),
        TokenKind::Bang => Ok(i64::from(a == 0)),
        _ => Ok(a),
    }
}
