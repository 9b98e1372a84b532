#![tactic(auto)]
// What is read before the name of a declarator: stars, and a parenthesis. And declarators that need no steps to be kept.
ghost use Rattle.std.specs.Prelude.{◌≡◌, ◌+◌, ◌≤◌};
ghost use Rattle.encoding.specs.Kinds.{kind_number, kind_numbers};
ghost use Rattle.definition.specs.Limit.{max_steps};
ghost use Rattle.definition.specs.Declarator.{opens_declarator};
ghost use Rattle.table.specs.Held.{state, Room};
ghost use Rattle.model.specs.Meaning.{model};
ghost use Rattle.naming.specs.Meaning.{tokens};
ghost use Rattle.declarator_heads.specs.Heads.{Stars, Tells, is_plain, is_plain_pointer};

use declarator_steps::Steps;
use encoding::refusals::{Reason, Refusal};
use encoding::token_kinds::TokenKind;
use model::Model;
use named_rows::typedef_row;
use naming::Tokens;
use skipping::qualifiers_here;
use table::{Cursor, kind_at};
use words::classes::is_name;
use words::types::builtin;

// Where to read on after stars, or a refusal; and the steps with the stars that were read, whatever the answer is.
#[derive(Clone, Copy)]
pub struct Starred {
    pub answer: Result<Cursor, Refusal>,
    pub steps: Steps,
}

// The stars, with their qualifiers, held until what they stand before is read.
#[tactic(auto, using(crate::proofs::Rounds::begin, crate::proofs::Rounds::has_room, crate::proofs::Rounds::ended, crate::proofs::Rounds::stopped))]
pub fn stars(kinds: &[TokenKind], c: Cursor, s: Steps) -> Starred
    requires { s.len + s.held ≤ max_steps }
    ensures { Stars (kind_numbers kinds.now) c s result }
{
    let mut here = c;
    let mut t = s;
    loop {
        let at = here.at;
        if kind_at(kinds, at) != TokenKind::Star {
            return Starred {
                answer: Ok(here),
                steps: t,
            };
        }
        if t.is_full() {
            let answer = Err(Refusal {
                reason: Reason::LimitPassed,
                at: at + 1,
            });
            return Starred { answer, steps: t };
        }
        let (q, next) = qualifiers_here(kinds, at + 1);
        t.hold_star(q);
        here = here.moved(next);
    }
}

// A parenthesis opens a declarator, and not a parameter list, before `*`, `(` or a word that names no type.
#[tactic(auto, unfolding(definition::specs::Declarator::opens_declarator))]
pub fn opens_declarator(ts: &Tokens<'_>, w: &[u32], c: Cursor, m: Model) -> bool
    requires { Room c }
    ensures { Tells (λ t. opens_declarator (tokens ts.now) (model m) (state c t)) c w.now result }
{
    let at = c.at;
    if ts.kind(at) != TokenKind::OpenParen {
        return false;
    }
    let kind = ts.kind(at + 1);
    if matches!(kind, TokenKind::Star | TokenKind::OpenParen) {
        return true;
    }
    if !is_name(kind) {
        return false;
    }
    typedef_row(w, c, ts.name(at + 1)).is_none() && builtin(m, kind).is_none()
}

// A name without a bound or a parameter list after it: a declarator that takes no steps.
#[tactic(auto, using(crate::proofs::Plain::names), unfolding(crate::specs::Heads::is_plain))]
pub fn is_plain(kinds: &[TokenKind], at: usize) -> bool
    ensures { result ≡ is_plain (kind_numbers kinds.now) at }
{
    if !is_name(kind_at(kinds, at)) {
        return false;
    }
    let next = kind_at(kinds, at + 1);
    !matches!(next, TokenKind::OpenBracket | TokenKind::OpenParen)
}

// One star with its qualifiers before such a name.
#[tactic(auto, unfolding(crate::specs::Heads::is_plain_pointer))]
pub fn is_plain_pointer(kinds: &[TokenKind], at: usize) -> bool
    ensures { result ≡ is_plain_pointer (kind_numbers kinds.now) at }
{
    if kind_at(kinds, at) != TokenKind::Star {
        return false;
    }
    let (_, next) = qualifiers_here(kinds, at + 1);
    is_plain(kinds, next)
}
