#![tactic(auto, using(table::proofs::Shown::held_next), unfolding(definition::specs::Row::kind_of, definition::specs::Row::target_of, definition::specs::Row::flags_of, definition::specs::Row::row_name, definition::specs::Row::span_of, definition::specs::Row::extent_of))]
// What the steps of a declarator make of a type: stars, bounds and parameter lists; and the types of parameters.
ghost use Rattle.std.specs.Prelude.{◌≡◌, [], ◌∷◌, ◌≤◌};
ghost use Rattle.definition.specs.Limit.{max_steps};
ghost use Rattle.definition.specs.Row.{pointer, array, function};
ghost use Rattle.definition.specs.Types.{add};
ghost use Rattle.definition.specs.Grammar.{array_step, function_step, pointer_step};
ghost use Rattle.definition.specs.Declarator.{add_function, returned, apply, adjusted};
ghost use Rattle.table.specs.Held.{Held};
ghost use Rattle.table.specs.Reply.{reply, numbers, Does};
ghost use Rattle.encoding.specs.Spans.{span};
ghost use Rattle.lemmas.specs.Options.{option};
ghost use Rattle.named_rows.specs.Finds.{Says};
ghost use Rattle.declarator_steps.specs.Pending.{step_of, pending};
ghost use Rattle.words.specs.Meaning.{qualifiers};

use declarator_steps::{Step, Steps};
use encoding::refusals::{Reason, Refusal};
use encoding::regions::NO_ROW;
use encoding::row_kinds::{ARRAY_KIND, FUNCTION_KIND, POINTER_KIND, VOID_KIND};
use encoding::span::Span;
use model::Model;
use named_rows::{resolve, resolved_kind};
use open_lists::own_parameters;
use table::{Answer, Cursor, Numbers, push_row, row_target};
use type_rows::{add_row, equal_row, qualify};
use words::qualifiers::Qualifiers;

// Lists that begin here or later have no parameters, so a search need not tell them apart.
const LAST_FIRST: u32 = Model::MAX_PARAMETERS as u32;

fn add_pointer(w: &mut [u32], d: &mut [u64], v: &mut [i64], c: Cursor, b: u32) -> Answer<u32>
    requires { Held c w.old d.old v.old }
    ensures { Does (add (pointer b)) c w.old d.old v.old (reply result) w.new d.new v.new }
{
    add_row(
        w,
        d,
        v,
        c,
        Numbers {
            kind: POINTER_KIND,
            target: b,
            ..Numbers::ZERO
        },
    )
}

// A star with its qualifiers.
pub fn apply_pointer(
    w: &mut [u32],
    d: &mut [u64],
    v: &mut [i64],
    c: Cursor,
    q: Qualifiers,
    b: u32,
) -> Answer<u32>
    requires { Held c w.old d.old v.old }
    ensures { Does (apply (pointer_step (qualifiers q) ∷ []) b) c w.old d.old v.old (reply result) w.new d.new v.new }
{
    let (e, n) = add_pointer(w, d, v, c, b)?;
    qualify(w, d, v, e, q, n)
}

// The row of an array.
#[tactic(auto, using(crate::proofs::Derived::array_numbers))]
fn array_row(element: u32, bound: Option<u64>) -> Numbers
    ensures { result ≡ numbers (array element (option bound)) }
{
    Numbers {
        kind: ARRAY_KIND,
        target: element,
        flags: u32::from(bound.is_some()),
        extent: bound.unwrap_or(0),
        ..Numbers::ZERO
    }
}

// A bound, if there is one.
fn apply_array(
    w: &mut [u32],
    d: &mut [u64],
    v: &mut [i64],
    c: Cursor,
    bound: Option<u64>,
    b: u32,
) -> Answer<u32>
    requires { Held c w.old d.old v.old }
    ensures { Does (apply (array_step (option bound) ∷ []) b) c w.old d.old v.old (reply result) w.new d.new v.new }
{
    if resolved_kind(w, b) == VOID_KIND {
        return Err(Refusal {
            reason: Reason::ImpossibleType,
            at: c.at,
        });
    }
    add_row(w, d, v, c, array_row(b, bound))
}

// A function of void returns nothing.
fn returned(w: &[u32], b: u32) -> Option<u32>
    ensures { Says (λ t. returned t b) w.now (option result) }
{
    if resolve(w, b) == NO_ROW {
        None
    } else {
        Some(b)
    }
}

// The row of a function.
#[tactic(auto, using(crate::proofs::Derived::function_numbers))]
fn function_row(returns: Option<u32>, varargs: bool, parameters: Span) -> Numbers
    ensures { result ≡ numbers (function (option returns) varargs (span parameters)) }
{
    Numbers {
        kind: FUNCTION_KIND,
        target: returns.unwrap_or(NO_ROW),
        flags: u32::from(returns.is_some()) + 2 * u32::from(varargs),
        first: parameters.first,
        count: parameters.count,
        ..Numbers::ZERO
    }
}

// A function type: an equal row, and then its list carries row 0, or a new one.
pub fn add_function(
    w: &mut [u32],
    d: &mut [u64],
    v: &mut [i64],
    c: Cursor,
    returns: Option<u32>,
    varargs: bool,
    parameters: Span,
) -> Answer<u32>
    requires { Held c w.old d.old v.old }
    ensures { Does (add_function (option returns) varargs (span parameters)) c w.old d.old v.old (reply result) w.new d.new v.new }
{
    let Span { first, count } = parameters;
    let near = first.min(LAST_FIRST);
    let like = function_row(returns, varargs, Span { first: near, count });
    if let Some(n) = equal_row(w, d, v, c, like) {
        own_parameters(w, c, first, NO_ROW);
        return Ok((c, n));
    }
    let (e, n) = push_row(w, d, v, c, function_row(returns, varargs, parameters))?;
    own_parameters(w, e, first, n);
    Ok((e, n))
}

// A parameter list.
fn apply_function(
    w: &mut [u32],
    d: &mut [u64],
    v: &mut [i64],
    c: Cursor,
    varargs: bool,
    parameters: Span,
    b: u32,
) -> Answer<u32>
    requires { Held c w.old d.old v.old }
    ensures { Does (apply (function_step varargs (span parameters) ∷ []) b) c w.old d.old v.old (reply result) w.new d.new v.new }
{
    let kind = resolved_kind(w, b);
    if kind == ARRAY_KIND || kind == FUNCTION_KIND {
        return Err(Refusal {
            reason: Reason::ImpossibleType,
            at: c.at,
        });
    }
    add_function(w, d, v, c, returned(w, b), varargs, parameters)
}

// One step.
fn apply_step(
    w: &mut [u32],
    d: &mut [u64],
    v: &mut [i64],
    c: Cursor,
    x: Step,
    b: u32,
) -> Answer<u32>
    requires { Held c w.old d.old v.old }
    ensures { Does (apply (step_of x ∷ []) b) c w.old d.old v.old (reply result) w.new d.new v.new }
{
    match x {
        Step::Pointer(q) => apply_pointer(w, d, v, c, q, b),
        Step::Array(bound) => apply_array(w, d, v, c, bound, b),
        Step::Function(varargs, parameters) => apply_function(w, d, v, c, varargs, parameters, b),
    }
}

// Each step in turn, the newest first.
pub fn apply(
    w: &mut [u32],
    d: &mut [u64],
    v: &mut [i64],
    c: Cursor,
    s: Steps,
    b: u32,
) -> Answer<u32>
    requires { Held c w.old d.old v.old × (s.len ≤ max_steps) }
    ensures { Does (apply (pending s).steps b) c w.old d.old v.old (reply result) w.new d.new v.new }
{
    let mut here = c;
    let mut row = b;
    for i in (0..s.len).rev() {
        let x = s.step_at(i);
        let (e, n) = apply_step(w, d, v, here, x, row)?;
        here = e;
        row = n;
    }
    Ok((here, row))
}

// "A parameter declared as an array or a function is a pointer"; a void one is refused.
pub fn adjusted(
    w: &mut [u32],
    d: &mut [u64],
    v: &mut [i64],
    c: Cursor,
    at: usize,
    b: u32,
) -> Answer<u32>
    requires { Held c w.old d.old v.old }
    ensures { Does (adjusted at b) c w.old d.old v.old (reply result) w.new d.new v.new }
{
    match resolved_kind(w, b) {
        ARRAY_KIND => add_pointer(w, d, v, c, row_target(w, resolve(w, b))),
        FUNCTION_KIND => add_pointer(w, d, v, c, b),
        VOID_KIND => Err(Refusal {
            reason: Reason::ImpossibleType,
            at,
        }),
        _ => Ok((c, b)),
    }
}
