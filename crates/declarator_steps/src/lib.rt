#![tactic(auto)]
// The pending steps of a declarator: "at most 256 stars, bounds and parameter lists in one declarator".
ghost use Rattle.std.specs.Prelude.{◌≡◌, ◌∷◌, ◌+◌, ◌<◌, leb, get_or};
ghost use Rattle.definition.specs.Limit.{max_steps};
ghost use Rattle.words.specs.Meaning.{qualifiers};
ghost use Rattle.declarator_steps.specs.Pending.{step_of, step_from, step_in, kept, steps_from, pending, none_pending, no_steps, with_step, with_star, released, Room, Waiting};

use encoding::span::Span;
use model::Model;
use words::qualifiers::Qualifiers;

// Kinds of steps, as they are kept.
pub const POINTER: u32 = 1;

pub const ARRAY: u32 = 2;

pub const BOUNDED: u32 = 3;

pub const FUNCTION: u32 = 4;

pub const VARIADIC: u32 = 5;

// Where a function's parameters stand: the first of them in this unit, and their count below it.
const FIRST_UNIT: u64 = 4294967296;

// A star with its qualifiers; a bound, if there is one; a parameter list: whether it has `...`, and where its entries stand.
#[derive(Clone, Copy)]
pub enum Step {
    Pointer(Qualifiers),
    Array(Option<u64>),
    Function(bool, Span),
}

// The steps stand at the start, the stars that wait at the end, from the last entry down.
#[derive(Clone, Copy)]
pub struct Steps {
    pub kinds: [u32; Model::MAX_STEPS],
    pub operands: [u64; Model::MAX_STEPS],
    pub len: usize,
    pub held: usize,
}

impl Step {
    // Its kind and its operand.
    #[tactic(auto, using(crate::proofs::Views::span_is, crate::proofs::Views::bits_back), unfolding(crate::specs::Pending::kept, crate::specs::Pending::step_from))]
    #[inline(always)]
    fn kept(self) -> (u32, u64)
        ensures kept { result ≡ kept (step_of self) }
        ensures means { step_from result.0 result.1 ≡ step_of self }
    {
        match self {
            Step::Pointer(q) => (POINTER, u64::from(q.bits())),
            Step::Array(None) => (ARRAY, 0),
            Step::Array(Some(bound)) => (BOUNDED, bound),
            Step::Function(varargs, Span { first, count }) => {
                let kind = if varargs { VARIADIC } else { FUNCTION };
                (kind, FIRST_UNIT * u64::from(first) + u64::from(count))
            }
        }
    }

    // The step of a kind and an operand.
    #[tactic(auto, unfolding(crate::specs::Pending::step_from, crate::specs::Pending::span_of))]
    fn from_kept(kind: u32, operand: u64) -> Step
        ensures { step_of result ≡ step_from kind operand }
    {
        match kind {
            POINTER => Step::Pointer(Qualifiers::from_bits(operand)),
            ARRAY => Step::Array(None),
            BOUNDED => Step::Array(Some(operand)),
            _ => {
                let first = (operand / FIRST_UNIT) as u32;
                let count = (operand % FIRST_UNIT) as u32;
                Step::Function(kind != FUNCTION, Span { first, count })
            }
        }
    }
}

impl Steps {
    #[tactic(auto, unfolding(crate::specs::Pending::steps_from, crate::specs::Pending::stars_from))]
    pub fn empty() -> Steps
        ensures kept { result ≡ no_steps }
        ensures means { pending result ≡ none_pending }
    {
        Steps {
            kinds: [0; Model::MAX_STEPS],
            operands: [0; Model::MAX_STEPS],
            len: 0,
            held: 0,
        }
    }

    // There is no room for one more.
    pub fn is_full(&self) -> bool
        ensures { result ≡ leb max_steps (self.now.held + self.now.len) }
    {
        Model::MAX_STEPS.saturating_sub(self.len) <= self.held
    }

    // The step at an entry: before it come those that a base type takes after it.
    #[tactic(auto, using(crate::proofs::Views::steps_more))]
    pub fn step_at(&self, i: usize) -> Step
        requires { i < max_steps }
        ensures kept { step_of result ≡ step_in self.now.kinds self.now.operands i }
        ensures means { steps_from self.now.kinds self.now.operands (i + 1) ≡ step_of result ∷ steps_from self.now.kinds self.now.operands i }
    {
        Step::from_kept(self.kinds[i], self.operands[i])
    }

    // One more step, which a base type takes before the others. Put into its caller: else that keeps its 3 KB of steps once more.
    #[inline(always)]
    pub fn push(&mut self, x: Step)
        requires { Room self.old }
        ensures { pending self.new ≡ with_step (pending self.old) (step_of x) }
    {
        let n = self.len;
        let (kind, operand) = x.kept();
        self.kinds[n] = kind;
        self.operands[n] = operand;
        self.len += 1;
    }

    // One more star that waits.
    pub fn hold_star(&mut self, q: Qualifiers)
        requires { Room self.old }
        ensures { pending self.new ≡ with_star (pending self.old) (qualifiers q) }
    {
        let at = Model::MAX_STEPS - 1 - self.held;
        self.operands[at] = u64::from(q.bits());
        self.held += 1;
    }

    // The newest n stars become steps: what they stand before has been read.
    pub fn release_stars(&mut self, n: usize)
        requires { Waiting self.old n }
        ensures { pending self.new ≡ released n (pending self.old) }
    {
        for _ in 0..n {
            let len = self.len;
            let at = Model::MAX_STEPS - self.held;
            self.kinds[len] = POINTER;
            self.operands[len] = self.operands[at];
            self.len += 1;
            self.held -= 1;
        }
    }
}
