#![tactic(auto)]
// # lines: where one ends, and whether it is a macro that is refused.
ghost use Rattle.std.specs.Prelude.{◌≡◌, [], ◌∷◌, ◌+◌, ◌≤◌, ◌<◌, min, length, IfOk};
ghost use Rattle.definition.specs.Text.{Bytes};
ghost use Rattle.definition.specs.Comment.{comment_end};
ghost use Rattle.directives.specs.declared.State.TheVariants.{InDefine, InBody};
ghost use Rattle.encoding.specs.Refusals.{answer};
ghost use Rattle.directives.specs.Turn.{wanted, Reads, Decides, skipped};

use encoding::refusals::{Reason, Refusal};
use scan::{Class, begins, class_of, comment_end, is_blank, is_word_byte, line_end};

// A # line: whether it is a macro that is kept, and where it ends.
#[derive(Clone, Copy)]
pub struct Decided {
    pub keeps: bool,
    pub next: usize,
}

// How far a # line was read that could be a macro.
#[derive(Clone, Copy)]
enum State {
    BeforeWord,
    // With so many letters of `define` read.
    InDefine(usize),
    BeforeName,
    InName,
    // In a body that says nothing yet.
    InBody,
    Kept,
    Dropped,
}

// The state after a byte, behind so many letters of `define`.
#[tactic(auto, using(crate::proofs::Macro::letter_same, crate::proofs::Macro::letter_other), unfolding(definition::specs::Directive::past_blanks, definition::specs::Scan::starts_with, definition::specs::Text::bytes, crate::specs::Turn::wants))]
fn define_turn(read: usize, b: u8) -> State
    ensures { (rest : Bytes) → wanted result rest ≡ wanted (InDefine read) (b ∷ rest) }
{
    match b"define".get(read) {
        Some(letter) if *letter == b => State::InDefine(read + 1),
        None if is_blank(u32::from(b)) => State::BeforeName,
        _ => State::Dropped,
    }
}

// The state after a byte of a body, or the first one past the name.
#[tactic(auto, unfolding(definition::specs::Directive::says_something))]
fn body_turn(b: u8) -> State
    ensures { (rest : Bytes) → wanted result rest ≡ wanted InBody (b ∷ rest) }
{
    if is_blank(u32::from(b)) || b == b'\\' {
        State::InBody
    } else {
        State::Kept
    }
}

// The state after a byte.
#[tactic(auto, using(crate::proofs::Macro::word_begins, crate::proofs::Macro::name_opens, crate::proofs::Macro::name_past), unfolding(definition::specs::Directive::is_macro, definition::specs::Directive::past_blanks, definition::specs::Directive::is_name_and_body, definition::specs::Directive::ends_word, definition::specs::Class::is_word_byte, definition::specs::Scan::before))]
fn turn(state: State, b: u8) -> State
    ensures { (rest : Bytes) → wanted result rest ≡ wanted state (b ∷ rest) }
{
    match state {
        State::BeforeWord if is_blank(u32::from(b)) => State::BeforeWord,
        State::BeforeWord => define_turn(0, b),
        State::InDefine(read) => define_turn(read, b),
        State::BeforeName if is_blank(u32::from(b)) => State::BeforeName,
        State::BeforeName if class_of(u32::from(b)) == Class::Letter => State::InName,
        State::BeforeName => State::Dropped,
        State::InName if is_word_byte(u32::from(b)) => State::InName,
        State::InName if b == b'(' => State::Dropped,
        State::InName => body_turn(b),
        State::InBody => body_turn(b),
        State::Kept | State::Dropped => state,
    }
}

// A line that ends in this state is kept.
#[tactic(auto, using(crate::proofs::Macro::not_kept))]
fn is_kept(state: State) -> bool
    ensures { result ≡ wanted state [] }
{
    matches!(state, State::Kept)
}

// The offset after a comment that opens at an offset; the text's end where it is not closed.
#[tactic(auto, using(crate::proofs::Lines::comment_inside), unfolding(definition::specs::Comment::comment_end))]
fn past_comment(text: &[u8], at: usize) -> usize
    requires { at + 2 ≤ length text.now }
    ensures { result ≡ min (comment_end text.now at + 2) (length text.now) }
{
    (comment_end(text, at + 2) + 2).min(text.len())
}

// The # line whose # stands at an offset: the state at its end, and where it ends.
fn read_line(text: &[u8], at: usize) -> (State, usize)
    requires { at < length text.now }
    ensures { Reads text.now at result }
{
    let mut i = at + 1;
    let mut state = State::BeforeWord;
    while i < text.len() {
        if begins(text, i, b'\\', b'\n') {
            state = turn(state, b' ');
            i += 2;
        } else if begins(text, i, b'/', b'*') {
            state = turn(state, b' ');
            i = past_comment(text, i);
        } else if begins(text, i, b'/', b'/') {
            i = line_end(text, i);
        } else {
            let b = text[i];
            if b == b'\n' {
                break;
            }
            state = turn(state, b);
            i += 1;
        }
    }
    (state, i)
}

// The # line whose # stands at an offset.
pub fn directive(text: &[u8], at: usize) -> Decided
    requires { at < length text.now }
    ensures { Decides text.now at result }
{
    let (state, next) = read_line(text, at);
    Decided {
        keeps: is_kept(state),
        next,
    }
}

// Where that line ends. A macro that would be kept is refused.
pub fn past_directive(text: &[u8], at: usize) -> Result<usize, Refusal>
    requires { at < length text.now }
    ensures value { answer result ≡ skipped text.now at }
    ensures goes { IfOk result (λ next. (at < next) × (next ≤ length text.now)) }
{
    let line = directive(text, at);
    if line.keeps {
        return Err(Refusal {
            reason: Reason::MacroLine,
            at,
        });
    }
    Ok(line.next)
}
