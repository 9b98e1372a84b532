#![tactic(auto)]
// Tokens that are passed over by their kinds alone: qualifiers, the words before a bound, initialisers.
ghost use Rattle.std.specs.Prelude.{◌≡◌, List, ℕ, suc, pos, drop};
ghost use Rattle.encoding.specs.Kinds.{kind_number, kind_numbers};
ghost use Rattle.definition.specs.Token.{left};
ghost use Rattle.definition.specs.Table.{Table};
ghost use Rattle.definition.specs.Declarator.{qualifiers_here, bound_words};
ghost use Rattle.definition.specs.Reader.{nested, initialiser};
ghost use Rattle.words.specs.Meaning.{qualifiers};
ghost use Rattle.skipping.specs.Passing.{tokens, standing, qualifies, precedes_bound, ends_initialiser};

use encoding::token_kinds::TokenKind;
use table::kind_at;
use words::classes::is_qualifier_word;
use words::qualifiers::Qualifiers;

// The kinds from an index on.
fn from(kinds: &[TokenKind], at: usize) -> &[TokenKind]
    ensures { result.now ≡ drop at kinds.now }
{
    kinds.get(at..).unwrap_or_default()
}

// A qualifier, or `_Atomic`, which is passed over.
fn qualifies(k: TokenKind) -> bool
    ensures { result ≡ qualifies (kind_number k) }
{
    is_qualifier_word(k) || k == TokenKind::AtomicWord
}

// The qualifiers after a star, and the index of the token after them.
pub fn qualifiers_here(kinds: &[TokenKind], at: usize) -> (Qualifiers, usize)
    ensures { (ns : List ℕ) (t : Table) → qualifiers_here (tokens (kind_numbers kinds.now) ns) (standing at t) ≡ (qualifiers result.0, standing result.1 t) }
{
    let rest = from(kinds, at);
    let mut q = Qualifiers::none();
    for (i, k) in rest.iter().enumerate() {
        if !qualifies(*k) {
            return (q, at + i);
        }
        q = q.with_qualifier(*k);
    }
    (q, at + rest.len())
}

// `static` or a qualifier in brackets.
fn precedes_bound(k: TokenKind) -> bool
    ensures { result ≡ precedes_bound (kind_number k) }
{
    k == TokenKind::StaticWord || qualifies(k)
}

// The words before a bound.
pub fn bound_words(kinds: &[TokenKind], at: usize) -> usize
    ensures { (ns : List ℕ) (t : Table) → bound_words (tokens (kind_numbers kinds.now) ns) (suc (left (tokens (kind_numbers kinds.now) ns) at)) (standing at t) ≡ standing result t }
{
    let words = from(kinds, at).iter().take_while(|k| precedes_bound(**k));
    at + words.count()
}

// How much deeper in brackets a token leads.
#[tactic(auto, unfolding(definition::specs::Reader::nested))]
fn deeper(k: TokenKind) -> i64
    ensures { result ≡ nested (kind_number k) (pos 0) }
{
    match k {
        TokenKind::OpenBrace | TokenKind::OpenParen | TokenKind::OpenBracket => 1,
        TokenKind::CloseBrace | TokenKind::CloseParen | TokenKind::CloseBracket => -1,
        _ => 0,
    }
}

// Whether an initialiser ends before this token.
fn ends_initialiser(k: TokenKind, depth: i64) -> bool
    ensures { result ≡ ends_initialiser (kind_number k) depth }
{
    match k {
        TokenKind::End => true,
        TokenKind::Comma | TokenKind::Semicolon => depth <= 0,
        _ => false,
    }
}

// An initialiser, if one stands here: to a comma or semicolon outside its brackets, or to the end.
pub fn initialiser(kinds: &[TokenKind], at: usize) -> usize
    ensures { (ns : List ℕ) (t : Table) → initialiser (tokens (kind_numbers kinds.now) ns) (standing at t) ≡ standing result t }
{
    if kind_at(kinds, at) != TokenKind::Equals {
        return at;
    }
    let begin = at + 1;
    let rest = from(kinds, begin);
    let mut depth = 0;
    for (i, k) in rest.iter().enumerate() {
        if ends_initialiser(*k, depth) {
            return begin + i;
        }
        depth += deeper(*k);
    }
    begin + rest.len()
}
