#![tactic(auto)]
// Going over a text: bytes, their classes, how far something holds, and the line and column of an offset.
ghost use Rattle.std.specs.Prelude.{◌≡◌, ◌+◌, eqb};
ghost use Rattle.definition.specs.Text.{byte_at};
ghost use Rattle.definition.specs.Class.{mark, class_of, is_blank, is_word_byte};
ghost use Rattle.definition.specs.Scan.{from, before, begins};
ghost use Rattle.definition.specs.Comment.{ends_comment, line_length};
ghost use Rattle.definition.specs.Directive.{ends_word};
ghost use Rattle.definition.specs.Attribute.{not_blank};
ghost use Rattle.definition.specs.Number.{is_number_byte, ends_number};
ghost use Rattle.definition.specs.Place.{place_of};
ghost use Rattle.scan.specs.Classes.{byte, class_number};
ghost use Rattle.scan.specs.Ends.{Ends};
ghost use Rattle.scan.specs.Where.{place};

// Bit k says whether byte 64 + k is a letter or _.
const LETTERS: u64 = 0x07FF_FFFE_87FF_FFFE;

// The class of a byte.
#[derive(Clone, Copy, PartialEq, Eq)]
pub enum Class {
    Nothing,
    Blank,
    Letter,
    Digit,
    Mark,
}

// A place in a text, counted from 1.
#[derive(Clone, Copy)]
pub struct Spot {
    pub line: usize,
    pub column: usize,
}

// The byte at an offset; none past the end of the text.
pub fn byte_at(text: &[u8], at: usize) -> Option<u8>
    ensures { byte result ≡ byte_at text.now at }
{
    text.get(at).copied()
}

// What follows an offset.
pub fn from(text: &[u8], at: usize) -> &[u8]
    ensures { result.now ≡ from text.now at }
{
    text.get(at..).unwrap_or_default()
}

// Two bytes stand at an offset.
#[tactic(auto, using(crate::proofs::Going::two_bytes, std::proofs::lemmas::Bool::Decides::nat_tests))]
pub fn begins(text: &[u8], at: usize, a: u8, b: u8) -> bool
    ensures { result ≡ begins a b (from text.now at) }
{
    at < text.len()
        && text[at] == a
        && match byte_at(text, at + 1) {
            Some(next) => next == b,
            None => false,
        }
}

#[tactic(auto, using(crate::proofs::Classes::blank_is, std::proofs::lemmas::Bool::Decides::nat_tests), unfolding(definition::specs::Class::is_blank_byte))]
pub fn is_blank(b: u32) -> bool
    ensures { result ≡ is_blank b }
{
    match u8::try_from(b) {
        Ok(b) => matches!(b, b'\t'..=b'\r' | b' '),
        Err(_) => false,
    }
}

#[tactic(auto, using(crate::proofs::Classes::word_is, crate::proofs::Classes::word_high, std::proofs::lemmas::Bool::Decides::nat_tests), unfolding(definition::specs::Class::is_letter_byte, definition::specs::Class::is_digit_byte))]
pub fn is_word_byte(b: u32) -> bool
    ensures { result ≡ is_word_byte b }
{
    match u8::try_from(b) {
        Ok(b @ b'@'..=b'\x7F') => (LETTERS >> (b % 64)) % 2 == 1,
        Ok(b) => matches!(b, b'0'..=b'9'),
        Err(_) => false,
    }
}

#[tactic(auto, unfolding(definition::specs::Number::is_number_byte))]
pub fn is_number_byte(b: u32) -> bool
    ensures { result ≡ is_number_byte b }
{
    is_word_byte(b) | (b == u32::from(b'.'))
}

// A byte with which a mark begins.
#[tactic(auto, using(crate::proofs::Classes::mark_is, std::proofs::lemmas::Bool::Decides::nat_tests))]
fn is_mark(b: u32) -> bool
    ensures { result ≡ eqb (class_of b) mark }
{
    match u8::try_from(b) {
        Ok(b) => matches!(
            b,
            b'!' | b'%' | b'&' | b'('..=b'/' | b':'..=b'?' | b'[' | b']' | b'^' | b'{'..=b'~'
        ),
        Err(_) => false,
    }
}

// The class of a byte.
pub fn class_of(b: u32) -> Class
    ensures { class_number result ≡ class_of b }
{
    if is_word_byte(b) {
        if b <= u32::from(b'9') {
            Class::Digit
        } else {
            Class::Letter
        }
    } else if is_blank(b) {
        Class::Blank
    } else if is_mark(b) {
        Class::Mark
    } else {
        Class::Nothing
    }
}

// The offset of the first byte, from an offset on, at which the closure stops; the end of the text where it stops at none.
fn end_of<F: Fn(u8) -> bool>(text: &[u8], at: usize, stops: F) -> usize
    requires { (b : _) → F.pre stops b }
    ensures { Ends (F.post stops) text.now at result }
{
    let rest = from(text, at);
    at + rest.iter().position(|b| stops(*b)).unwrap_or(rest.len())
}

// Where the word that goes on at an offset ends.
pub fn word_end(text: &[u8], at: usize) -> usize
    ensures { result ≡ at + before ends_word (from text.now at) }
{
    end_of(text, at, |b| !is_word_byte(u32::from(b)))
}

// Where the number that goes on at an offset ends.
pub fn number_end(text: &[u8], at: usize) -> usize
    ensures { result ≡ at + before ends_number (from text.now at) }
{
    end_of(text, at, |b| !is_number_byte(u32::from(b)))
}

// Where the blanks that stand at an offset end.
pub fn blanks_end(text: &[u8], at: usize) -> usize
    ensures { result ≡ at + before not_blank (from text.now at) }
{
    end_of(text, at, |b| !is_blank(u32::from(b)))
}

// Where the line ends.
pub fn line_end(text: &[u8], at: usize) -> usize
    ensures { result ≡ at + line_length (from text.now at) }
{
    end_of(text, at, |b| b == b'\n')
}

// Where the comment closes whose inside begins at an offset: at its star, or at the last byte of the text.
pub fn comment_end(text: &[u8], at: usize) -> usize
    ensures { result ≡ at + before ends_comment (from text.now at) }
{
    let inside = from(text, at);
    at + inside
        .windows(2)
        .position(|two| matches!(two, [b'*', b'/']))
        .unwrap_or(inside.len().saturating_sub(1))
}

// The line and the column of an offset.
pub fn line_column(text: &[u8], offset: usize) -> Spot
    ensures { place result ≡ place_of text.now offset }
{
    let passed = &text[..offset.min(text.len())];
    let mut line = 1;
    let mut column = 1;
    for b in passed {
        if *b == b'\n' {
            line += 1;
            column = 1;
        } else {
            column += 1;
        }
    }
    Spot { line, column }
}
