#![tactic(auto)]
// Constant expressions over the columns of tokens and the enumerators found so far, equal to the definition of the same names.
ghost use Rattle.std.specs.Prelude.{◌≡◌, ◌+◌, ◌<◌, ◌^◌, List, ℕ};
ghost use Rattle.encoding.specs.Kinds.{kind_number, kind_numbers};
ghost use Rattle.definition.specs.Constant.{level, constant};
ghost use Rattle.definition.specs.Token.{need};
ghost use Rattle.arithmetic.specs.Outcome as arithmetic;
ghost use Rattle.encoding.specs.Refusals.{answer, answer_by};
ghost use Rattle.table.specs.Held.{Room};
ghost use Rattle.table.specs.Reply.{Peek};
ghost use Rattle.constants.specs.Here.{Evaluates};
ghost use Rattle.constants.specs.Lookup.{known_value, found};
ghost use Rattle.constants.specs.Reading.{tokens, tokens_of, known_to, index, with_place, ReadsPrimary};

use arithmetic::ArithmeticError;
use encoding::refusals::{Reason, Refusal};
use encoding::regions::{VALUE_COLUMNS, VALUE_NAME, VALUES_AT};
use encoding::token_kinds::TokenKind;
use model::Model;
use table::{Cursor, kind_at, number_at, value_bound, word_at};
use words::classes::is_name;

// Depths 0 to 64.
const DEPTHS: u32 = Model::MAX_DEPTH + 1;
// Below every operator's precedence.
const NO_PRECEDENCE: u32 = 0;

// What constants are read from: the columns of tokens, and the enumerators, which are so many in the lent slices.
#[derive(Clone, Copy)]
pub struct Source<'a> {
    pub kinds: &'a [TokenKind],
    pub numbers: &'a [u64],
    pub words: &'a [u32],
    pub values: &'a [i64],
    pub count: u32,
}

impl Source<'_> {
    // The value of the last enumerator that has a name.
    pub fn value_of(&self, name: u64) -> Option<i64>
        ensures { found result ≡ known_to self.now name }
    {
        let from = self.count.min(value_bound(self.words, name)) as usize;
        for k in (0..from).rev() {
            if u64::from(word_at(self.words, VALUES_AT + VALUE_COLUMNS * k + VALUE_NAME)) == name {
                return Some(self.values.get(k).copied().unwrap_or(0));
            }
        }
        None
    }
}

// A place among the tokens.
#[derive(Clone, Copy)]
pub struct Place {
    pub at: usize,
}

impl Place {
    // The kind of the token here: the end's past the last.
    pub fn kind(self, kinds: &[TokenKind]) -> TokenKind
        ensures { Peek (kind_numbers kinds.now) self.at (kind_number result) }
    {
        kind_at(kinds, self.at)
    }

    // Its number; 0 past the last.
    pub fn number(self, numbers: &[u64]) -> u64
        ensures { Peek numbers.now self.at result }
    {
        number_at(numbers, self.at)
    }

    pub fn next(self) -> Place
        requires { self.at + 1 < 2 ^ 64 }
        ensures { result.at ≡ self.at + 1 }
    {
        Place { at: self.at + 1 }
    }

    // Past a mark, which must stand here.
    pub fn past(self, kinds: &[TokenKind], mark: TokenKind) -> Result<Place, Refusal>
        requires { 0 < kind_number mark }
        ensures { (ns : List ℕ) → answer_by index result ≡ need (tokens (kind_numbers kinds.now) ns) (kind_number mark) self.at }
    {
        if self.kind(kinds) != mark {
            return Err(Refusal {
                reason: Reason::MissingMark,
                at: self.at,
            });
        }
        Ok(self.next())
    }
}

// An operator's number, or its refusal at `at`.
#[tactic(auto, using(crate::proofs::Told::told))]
pub fn settled(n: Result<i64, ArithmeticError>, at: usize) -> Result<i64, Refusal>
    ensures { answer result ≡ arithmetic.answer n at }
{
    n.map_err(|e| Refusal {
        reason: Reason::from(e),
        at,
    })
}

// A literal, or an enumerator's name.
pub fn primary_value(s: &Source<'_>, c: Place) -> Result<(Place, i64), Refusal>
    ensures { ReadsPrimary (tokens_of s.now) (known_to s.now) c.at result }
{
    let at = c.at;
    let no_constant = Refusal {
        reason: Reason::NoConstant,
        at,
    };
    let k = c.kind(s.kinds);
    let value = if k == TokenKind::Number {
        settled(arithmetic::literal(c.number(s.numbers)), at)?
    } else if is_name(k) {
        s.value_of(c.number(s.numbers)).ok_or(no_constant)?
    } else {
        return Err(no_constant);
    };
    Ok((c.next(), value))
}

// An operand: a prefix and its operand, a condition in parentheses, a literal or a name.
#[cycle(binary_conditional_unary)]
pub fn unary(s: &Source<'_>, c: Place, room: u32) -> Result<(Place, i64), Refusal>
    ensures { answer_by with_place result ≡ (level (tokens_of s.now) (known_to s.now) room).operand c.at }
{
    let at = c.at;
    if room == 0 {
        return Err(Refusal {
            reason: Reason::TooDeep,
            at,
        });
    }
    let k = c.kind(s.kinds);
    if operators::is_prefix(k) {
        let (t, x) = unary(s, c.next(), room - 1)?;
        let value = settled(operators::prefix(k, x), at)?;
        return Ok((t, value));
    }
    if k == TokenKind::OpenParen {
        let (close, x) = conditional(s, c.next(), room - 1)?;
        let e = close.past(s.kinds, TokenKind::CloseParen)?;
        return Ok((e, x));
    }
    primary_value(s, c)
}

// A chain of operators that bind tighter than `low`, from the left.
#[cycle(binary_conditional_unary)]
pub fn binary(s: &Source<'_>, c: Place, low: u32, room: u32) -> Result<(Place, i64), Refusal>
    ensures { answer_by with_place result ≡ (level (tokens_of s.now) (known_to s.now) room).chain low c.at }
{
    if room == 0 {
        return Err(Refusal {
            reason: Reason::TooDeep,
            at: c.at,
        });
    }
    let (mut t, mut left) = unary(s, c, room)?;
    loop {
        let k = t.kind(s.kinds);
        let p = operators::precedence_of(k);
        if p <= low {
            return Ok((t, left));
        }
        let (u, y) = binary(s, t.next(), p, room - 1)?;
        left = settled(operators::operate(k, left, y), t.at)?;
        t = u;
    }
}

// A chain, or a chain, `?`, a condition, `:` and a condition. Every arm is evaluated.
#[cycle(binary_conditional_unary)]
pub fn conditional(s: &Source<'_>, c: Place, room: u32) -> Result<(Place, i64), Refusal>
    ensures { answer_by with_place result ≡ (level (tokens_of s.now) (known_to s.now) room).condition c.at }
{
    if room == 0 {
        return Err(Refusal {
            reason: Reason::TooDeep,
            at: c.at,
        });
    }
    let (t, x) = binary(s, c, NO_PRECEDENCE, room)?;
    if t.kind(s.kinds) != TokenKind::Question {
        return Ok((t, x));
    }
    let (colon, y) = conditional(s, t.next(), room - 1)?;
    let last = colon.past(s.kinds, TokenKind::Colon)?;
    // It has a name, so that the proof speaks of this answer itself.
    let third = conditional(s, last, room - 1);
    let (e, z) = third?;
    if x == 0 {
        return Ok((e, z));
    }
    Ok((e, y))
}

// The constant at a place: its value and the place after it, or its refusal.
#[tactic(auto, unfolding(definition::specs::Constant::constant))]
pub fn constant_at(s: &Source<'_>, c: Place) -> Result<(Place, i64), Refusal>
    ensures { answer_by with_place result ≡ constant (tokens_of s.now) (known_to s.now) c.at }
{
    conditional(s, c, DEPTHS)
}

// The constant where the table's cursor stands, with the enumerators of the table: its value, and the cursor after it.
pub fn constant_here(
    kinds: &[TokenKind],
    numbers: &[u64],
    w: &[u32],
    v: &[i64],
    c: Cursor,
) -> Result<(Cursor, i64), Refusal>
    requires { Room c }
    ensures { Evaluates (tokens (kind_numbers kinds.now) numbers.now) c w.now v.now result }
{
    let s = Source {
        kinds,
        numbers,
        words: w,
        values: v,
        count: c.values as u32,
    };
    let (t, z) = constant_at(&s, Place { at: c.at })?;
    Ok((c.moved(t.at), z))
}
