#![tactic(auto)]
// Marks, and where a string ends.
ghost use Rattle.std.specs.Prelude.{◌≡◌, ◌≢◌, IfSome, false, ◌&&◌, ◌+◌, ◌≤◌, ◌<◌, eqb, length};
ghost use Rattle.std.specs.Option.{option_map};
ghost use Rattle.encoding.specs.Kinds.{kind_number};
ghost use Rattle.definition.specs.Text.{byte_at};
ghost use Rattle.definition.specs.Byte.{dot_byte};
ghost use Rattle.definition.specs.Scan.{from};
ghost use Rattle.definition.specs.Mark.{pair, two_byte_marks, one_byte_marks, mark_among, mark_at};
ghost use Rattle.definition.specs.Quoted.{in_quotes};
ghost use Rattle.punctuators.specs.Found.{mark, kind_or_none, longer};

use encoding::ascii;
use encoding::token_kinds::TokenKind;
use scan::from;

// A mark: its kind, and how many bytes it takes.
#[derive(Clone, Copy)]
pub struct Found {
    pub kind: TokenKind,
    pub size: usize,
}

// The byte at an offset; 256 past the end of the text.
fn byte_at(text: &[u8], at: usize) -> u32
    ensures { result ≡ byte_at text.now at }
{
    match scan::byte_at(text, at) {
        Some(b) => u32::from(b),
        None => 256,
    }
}

// Three dots.
pub fn is_ellipsis(text: &[u8], at: usize) -> bool
    requires { at < length text.now }
    ensures { result ≡ (eqb (byte_at text.now at) dot_byte && (eqb (byte_at text.now (at + 1)) dot_byte && eqb (byte_at text.now (at + 2)) dot_byte)) }
{
    matches!(from(text, at), [b'.', b'.', b'.', ..])
}

// The kind of a mark of two bytes.
#[tactic(auto, unfolding(definition::specs::Mark::mark_among, definition::specs::Mark::two_byte_marks))]
pub fn two_bytes(a: u32, b: u32) -> Option<TokenKind>
    requires { (a ≤ 256) × (b ≤ 256) }
    ensures { option_map kind_number result ≡ kind_or_none (mark_among two_byte_marks (pair a b)) }
{
    match (a, b) {
        (ascii::LESS, ascii::LESS) => Some(TokenKind::ShiftLeft),
        (ascii::GREATER, ascii::GREATER) => Some(TokenKind::ShiftRight),
        (ascii::LESS, ascii::EQUALS) => Some(TokenKind::LessEqual),
        (ascii::GREATER, ascii::EQUALS) => Some(TokenKind::GreaterEqual),
        (ascii::EQUALS, ascii::EQUALS) => Some(TokenKind::EqualEqual),
        (ascii::BANG, ascii::EQUALS) => Some(TokenKind::NotEqual),
        (ascii::AMPERSAND, ascii::AMPERSAND) => Some(TokenKind::AndAnd),
        (ascii::BAR, ascii::BAR) => Some(TokenKind::OrOr),
        _ => None,
    }
}

// The kind of a mark of one byte. In parts so small that each becomes a table.
#[tactic(auto, unfolding(definition::specs::Mark::mark_among, definition::specs::Mark::one_byte_marks))]
pub fn one_byte(a: u32) -> Option<TokenKind>
    ensures { option_map kind_number result ≡ kind_or_none (mark_among one_byte_marks a) }
{
    if a < 64 {
        return match a {
            ascii::BANG => Some(TokenKind::Bang),
            ascii::PERCENT => Some(TokenKind::Percent),
            ascii::AMPERSAND => Some(TokenKind::Ampersand),
            ascii::OPEN_PAREN => Some(TokenKind::OpenParen),
            ascii::CLOSE_PAREN => Some(TokenKind::CloseParen),
            ascii::STAR => Some(TokenKind::Star),
            ascii::PLUS => Some(TokenKind::Plus),
            ascii::COMMA => Some(TokenKind::Comma),
            ascii::MINUS => Some(TokenKind::Minus),
            ascii::DOT => Some(TokenKind::Dot),
            ascii::SLASH => Some(TokenKind::Slash),
            ascii::COLON => Some(TokenKind::Colon),
            ascii::SEMICOLON => Some(TokenKind::Semicolon),
            ascii::LESS => Some(TokenKind::Less),
            ascii::EQUALS => Some(TokenKind::Equals),
            ascii::GREATER => Some(TokenKind::Greater),
            ascii::QUESTION => Some(TokenKind::Question),
            _ => None,
        };
    }
    if a < 96 {
        return match a {
            ascii::OPEN_BRACKET => Some(TokenKind::OpenBracket),
            ascii::CLOSE_BRACKET => Some(TokenKind::CloseBracket),
            ascii::CARET => Some(TokenKind::Caret),
            _ => None,
        };
    }
    match a {
        ascii::OPEN_BRACE => Some(TokenKind::OpenBrace),
        ascii::BAR => Some(TokenKind::Bar),
        ascii::CLOSE_BRACE => Some(TokenKind::CloseBrace),
        ascii::TILDE => Some(TokenKind::Tilde),
        _ => None,
    }
}

// A byte with which a mark of two or three bytes begins.
fn is_longer(a: u32) -> bool
    ensures { result ≡ longer a }
{
    matches!(
        a,
        ascii::BANG | ascii::AMPERSAND | ascii::DOT | ascii::LESS..=ascii::GREATER | ascii::BAR
    )
}

// The mark that stands at an offset.
pub fn mark_at(text: &[u8], at: usize) -> Option<Found>
    requires { at < length text.now }
    ensures same { mark result ≡ mark_at (from text.now at) }
    ensures is_mark { IfSome result (λ f. kind_number f.kind ≢ 0) }
{
    let a = byte_at(text, at);
    if is_longer(a) {
        if is_ellipsis(text, at) {
            return Some(Found {
                kind: TokenKind::Ellipsis,
                size: 3,
            });
        }
        if let Some(kind) = two_bytes(a, byte_at(text, at + 1)) {
            return Some(Found { kind, size: 2 });
        }
    }
    one_byte(a).map(|kind| Found { kind, size: 1 })
}

// Where the string closes whose inside begins at an offset; the text's end where it does not.
#[tactic(auto, using(crate::proofs::Quotes::quotes_end, crate::proofs::Quotes::quotes_next))]
pub fn string_end(text: &[u8], at: usize) -> usize
    ensures { result ≡ at + in_quotes false (from text.now at) }
{
    let rest = from(text, at);
    let mut taken = false;
    for (i, b) in rest.iter().enumerate() {
        let b = u32::from(*b);
        if !taken && b == ascii::QUOTE {
            return at + i;
        }
        taken = !taken && b == ascii::BACKSLASH;
    }
    at + rest.len()
}
