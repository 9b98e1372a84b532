#![tactic(auto)]
// Attributes: what stands in parentheses after an attribute word, and whether it could change a layout.
ghost use Rattle.std.specs.Prelude.{◌≡◌, zero, ◌+◌, ◌≤◌, ◌<◌, length};
ghost use Rattle.definition.specs.Scan.{from, starts_with, contains};
ghost use Rattle.definition.specs.Attribute.{in_parens, changes_layout, parenthesized, attribute_at};
ghost use Rattle.encoding.specs.Refusals.{answer_by};
ghost use Rattle.attributes.specs.Shown.{attribute};

use encoding::refusals::{Reason, Refusal};
use scan::{blanks_end, byte_at, from};

// What a body has that could change a layout.
const LAYOUT_WORDS: [&[u8]; 5] = [
    b"packed",
    b"aligned",
    b"mode",
    b"vector_size",
    b"transparent_union",
];

// Where the parenthesis closes whose inside begins at an offset; the text's end where it does not.
pub fn parens_end(text: &[u8], at: usize) -> usize
    ensures { result ≡ at + in_parens zero (from text.now at) }
{
    let rest = from(text, at);
    let mut deep: usize = 0;
    for (i, b) in rest.iter().enumerate() {
        match b {
            b'(' => deep += 1,
            b')' if deep == 0 => return at + i,
            b')' => deep -= 1,
            _ => {}
        }
    }
    at + rest.len()
}

// A spelling stands at an index.
pub fn starts_with(body: &[u8], at: usize, word: &[u8]) -> bool
    requires { at ≤ length body.now }
    ensures { result ≡ starts_with word.now (from body.now at) }
{
    body[at..].starts_with(word)
}

// A spelling stands somewhere.
pub fn contains(body: &[u8], word: &[u8]) -> bool
    ensures { result ≡ contains word.now body.now }
{
    word.is_empty() || body.windows(word.len()).any(|part| word == part)
}

// A body that could change a layout.
pub fn changes_layout(body: &[u8]) -> bool
    ensures { result ≡ changes_layout body.now }
{
    LAYOUT_WORDS.iter().any(|word| contains(body, word))
}

// The attribute in the parentheses that open at an offset: whether it could change a layout, and where it ends.
pub fn parenthesized(text: &[u8], word: usize, at: usize) -> Result<(bool, usize), Refusal>
    requires { at < length text.now }
    ensures { answer_by attribute result ≡ parenthesized text.now word at }
{
    let begin = at + 1;
    let end = parens_end(text, begin);
    if text.len() <= end {
        return Err(Refusal {
            reason: Reason::NotClosed,
            at: word,
        });
    }
    let layout = changes_layout(&text[begin..end]);
    Ok((layout, end + 1))
}

// The same of the attribute whose word begins at `word` and ends at an offset.
#[tactic(auto, using(crate::proofs::Parens::no_parens, crate::proofs::Parens::parens))]
pub fn attribute_at(text: &[u8], word: usize, at: usize) -> Result<(bool, usize), Refusal>
    ensures { answer_by attribute result ≡ attribute_at text.now word at }
{
    let open = blanks_end(text, at);
    match byte_at(text, open) {
        Some(b'(') => parenthesized(text, word, open),
        _ => Ok((false, at)),
    }
}
