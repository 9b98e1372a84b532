#![tactic(auto)]
// One piece of a text: what stands at an offset, whatever was read before.
ghost use Rattle.std.specs.Prelude.{◌+◌, ◌≤◌, ◌<◌, length, IfOk};
ghost use Rattle.definition.specs.Cut.{cut_word, cut_number, cut_character, cut_string, cut_mark, cut_token, cut_directive, cut_comment, cut_other, cut_next};
ghost use Rattle.next_token.specs.Pieces.{Cuts, CutsOn, Goes, Starts, cut_attribute};

use attributes::attribute_at;
use characters::character;
use directives::past_directive;
use encoding::refusals::{Reason, Refusal};
use encoding::token_kinds::TokenKind;
use keywords::kind_of;
use literals::number_value;
use punctuators::{mark_at, string_end};
use scan::{Class, begins, class_of, comment_end, is_blank, line_end, number_end, word_end};
use words::classes::is_name;

// A piece: nothing, with the next offset and whether a line starts there; a token, with its kind, number and the next offset;
// or a name, with its kind and the next offset.
#[derive(Clone, Copy)]
pub enum Piece {
    Skip(usize, bool),
    Token(TokenKind, u64, usize),
    Name(TokenKind, usize),
}

// The attribute whose word stands at an offset and ends at another.
#[tactic(auto, using(crate::proofs::Steps::attributes), unfolding(crate::specs::Pieces::cut_attribute, definition::specs::Cut::push_attribute, definition::specs::Cut::drop_to, definition::specs::Kind::is_name))]
fn attribute(text: &[u8], at: usize, end: usize) -> Result<Piece, Refusal>
    requires { at < end }
    ensures value { Cuts (cut_attribute text.now end) text.now at result }
    ensures goes { IfOk result (Goes text.now at) }
{
    let (layout, next) = attribute_at(text, at, end)?;
    if layout {
        Ok(Piece::Token(TokenKind::Attribute, 0, next))
    } else {
        Ok(Piece::Skip(next, false))
    }
}

// The word that stands at an offset.
#[tactic(auto, using(crate::proofs::Steps::words), unfolding(definition::specs::Kind::is_name))]
pub fn word(text: &[u8], at: usize) -> Result<Piece, Refusal>
    requires { Starts text.now at 2 }
    ensures value { Cuts (cut_word text.now) text.now at result }
    ensures goes { IfOk result (Goes text.now at) }
{
    let end = word_end(text, at);
    match kind_of(&text[at..end]) {
        TokenKind::Attribute => attribute(text, at, end),
        kind if is_name(kind) => Ok(Piece::Name(kind, end)),
        kind => Ok(Piece::Token(kind, 0, end)),
    }
}

// The number that stands at an offset.
#[tactic(auto, using(crate::proofs::Steps::numbers), unfolding(definition::specs::Kind::is_name))]
pub fn number(text: &[u8], at: usize) -> Result<Piece, Refusal>
    requires { Starts text.now at 3 }
    ensures value { Cuts (cut_number text.now) text.now at result }
    ensures goes { IfOk result (Goes text.now at) }
{
    let end = number_end(text, at);
    let value = number_value(&text[at..end], at)?;
    Ok(Piece::Token(TokenKind::Number, value, end))
}

// The character constant that stands at an offset.
#[tactic(auto, using(crate::proofs::Steps::answers), unfolding(definition::specs::Cut::cut_character, definition::specs::Kind::is_name))]
pub fn constant(text: &[u8], at: usize) -> Result<Piece, Refusal>
    requires { at < length text.now }
    ensures value { Cuts (cut_character text.now) text.now at result }
    ensures goes { IfOk result (Goes text.now at) }
{
    let (value, next) = character(text, at)?;
    Ok(Piece::Token(TokenKind::Number, value, next))
}

// The string that stands at an offset.
#[tactic(auto, using(crate::proofs::Steps::answers), unfolding(definition::specs::Cut::cut_string, definition::specs::Quoted::after_string, definition::specs::Kind::is_name))]
pub fn string(text: &[u8], at: usize) -> Result<Piece, Refusal>
    requires { at < length text.now }
    ensures value { Cuts (cut_string text.now) text.now at result }
    ensures goes { IfOk result (Goes text.now at) }
{
    let end = string_end(text, at + 1);
    if text.len() <= end {
        return Err(Refusal {
            reason: Reason::NotClosed,
            at,
        });
    }
    Ok(Piece::Token(TokenKind::Text, 0, end + 1))
}

// The mark that stands at an offset.
#[tactic(auto, using(crate::proofs::Steps::mark_size), unfolding(definition::specs::Cut::cut_mark))]
pub fn mark(text: &[u8], at: usize) -> Result<Piece, Refusal>
    requires { at < length text.now }
    ensures value { Cuts (cut_mark text.now) text.now at result }
    ensures goes { IfOk result (Goes text.now at) }
{
    let m = mark_at(text, at).ok_or(Refusal {
        reason: Reason::StrayByte,
        at,
    })?;
    Ok(Piece::Token(m.kind, 0, at + m.size))
}

// What stands at an offset and is no blank.
#[tactic(auto, using(scan::proofs::Going::inside), unfolding(definition::specs::Cut::cut_token))]
pub fn token(text: &[u8], at: usize) -> Result<Piece, Refusal>
    requires { at < length text.now }
    ensures value { Cuts (cut_token text.now) text.now at result }
    ensures goes { IfOk result (Goes text.now at) }
{
    let b = text[at];
    match class_of(u32::from(b)) {
        Class::Letter => word(text, at),
        Class::Digit => number(text, at),
        _ => match b {
            b'\'' => constant(text, at),
            b'"' => string(text, at),
            _ => mark(text, at),
        },
    }
}

// The comment that opens at an offset.
#[tactic(auto, using(crate::proofs::Steps::comments), unfolding(definition::specs::Cut::cut_comment, definition::specs::Comment::after_comment, definition::specs::Comment::comment_end, definition::specs::Cut::skip_to))]
pub fn comment(text: &[u8], at: usize, line: bool) -> Result<Piece, Refusal>
    requires { at + 2 ≤ length text.now }
    ensures value { CutsOn (cut_comment text.now) text.now at line result }
    ensures goes { IfOk result (Goes text.now at) }
{
    let end = comment_end(text, at + 2);
    if text.len() <= end + 1 {
        return Err(Refusal {
            reason: Reason::NotClosed,
            at: end,
        });
    }
    Ok(Piece::Skip(end + 2, line))
}

// The # line at an offset.
#[tactic(auto, using(crate::proofs::Steps::answers), unfolding(definition::specs::Cut::cut_directive, definition::specs::Cut::skip_to))]
pub fn hash_line(text: &[u8], at: usize, line: bool) -> Result<Piece, Refusal>
    requires { at < length text.now }
    ensures value { CutsOn (cut_directive text.now) text.now at line result }
    ensures goes { IfOk result (Goes text.now at) }
{
    let next = past_directive(text, at)?;
    Ok(Piece::Skip(next, line))
}

// A comment, a # line or a token.
#[tactic(auto, using(scan::proofs::Going::inside), unfolding(definition::specs::Cut::cut_other, definition::specs::Cut::skip_to, definition::specs::Comment::joins, definition::specs::Comment::opens_line_comment, definition::specs::Comment::opens_comment))]
pub fn other(text: &[u8], at: usize, line: bool) -> Result<Piece, Refusal>
    requires { at < length text.now }
    ensures value { CutsOn (cut_other text.now) text.now at line result }
    ensures goes { IfOk result (Goes text.now at) }
{
    if begins(text, at, b'\\', b'\n') {
        return Ok(Piece::Skip(at + 2, line));
    }
    if begins(text, at, b'/', b'/') {
        return Ok(Piece::Skip(line_end(text, at), line));
    }
    if begins(text, at, b'/', b'*') {
        return comment(text, at, line);
    }
    if line && text[at] == b'#' {
        return hash_line(text, at, line);
    }
    token(text, at)
}

// What stands at an offset.
#[tactic(auto, using(scan::proofs::Going::inside), unfolding(definition::specs::Cut::cut_next, definition::specs::Cut::new_line, definition::specs::Cut::skip_to))]
pub fn next(text: &[u8], at: usize, line: bool) -> Result<Piece, Refusal>
    requires { at < length text.now }
    ensures value { CutsOn (cut_next text.now) text.now at line result }
    ensures goes { IfOk result (Goes text.now at) }
{
    let b = text[at];
    if b == b'\n' {
        return Ok(Piece::Skip(at + 1, true));
    }
    if is_blank(u32::from(b)) {
        return Ok(Piece::Skip(at + 1, line));
    }
    other(text, at, line)
}
