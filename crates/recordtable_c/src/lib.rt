#![tactic(auto)]
// The reader for programs in C and Rust: functions on numbers and lent slices, each a pointer and a length there. `include/recordtable.h` declares them.
ghost use Rattle.definition.specs.Listing.{printed_outcome};
ghost use Rattle.printing.specs.Written.{Wrote};
ghost use Rattle.std.specs.Prelude.{◌≡◌};
ghost use Rattle.definition.specs.Entry.{wholeHeader, singleDeclaration};
ghost use Rattle.definition.specs.Lent.{zeroed, left_in};
ghost use Rattle.clearing.specs.Slices.{lent};
ghost use Rattle.entry_points.specs.Answers.{told};
ghost use Rattle.recordtable_c.specs.Told.{outcome_in, number_of, numbers_of, number_told, numbers_told, over};

use entry_points::{Entry, Outcome, declaration, outcome_in_zeros, translation_unit};
use reports::report;

// What is returned for a text that is accepted. Refusals count from 1.
const ACCEPTED: u32 = 0;

// The numbers, as far as there is room for them.
fn put(answer: &mut [u64], numbers: &[u64])
    ensures { answer.new ≡ over numbers.now answer.old }
{
    let n = numbers.len().min(answer.len());
    answer[..n].copy_from_slice(&numbers[..n]);
}

fn tell(outcome: Outcome, answer: &mut [u64]) -> u32
    ensures value { result ≡ number_told (told outcome) }
    ensures answer_after { answer.new ≡ over (numbers_told (told outcome)) answer.old }
{
    match outcome {
        Ok(c) => {
            let counts = [
                c.rows as u64,
                c.members as u64,
                c.values as u64,
                c.parameters as u64,
                c.declarations as u64,
                c.names as u64,
            ];
            put(answer, &counts);
            ACCEPTED
        }
        Err(e) => {
            let place = [e.offset as u64, e.line as u64, e.column as u64, 0, 0, 0];
            put(answer, &place);
            u32::from(e.reason)
        }
    }
}

// A whole header.
#[unsafe(no_mangle)]
pub extern "C" fn recordtable_unit(
    text: &[u8],
    model: u32,
    words: &mut [u32],
    wides: &mut [u64],
    signeds: &mut [i64],
    answer: &mut [u64],
) -> u32
    ensures value { result ≡ number_of (outcome_in (lent words.old wides.old signeds.old) model wholeHeader text.now) }
    ensures answer_after { answer.new ≡ over (numbers_of (outcome_in (lent words.old wides.old signeds.old) model wholeHeader text.now)) answer.old }
    ensures signeds_after { lent words.new wides.new signeds.new ≡ left_in (lent words.old wides.old signeds.old) (outcome_in (lent words.old wides.old signeds.old) model wholeHeader text.now) }
{
    let outcome = translation_unit(text, model, words, wides, signeds);
    tell(outcome, answer)
}

// One declaration.
#[unsafe(no_mangle)]
pub extern "C" fn recordtable_declaration(
    text: &[u8],
    model: u32,
    words: &mut [u32],
    wides: &mut [u64],
    signeds: &mut [i64],
    answer: &mut [u64],
) -> u32
    ensures value { result ≡ number_of (outcome_in (lent words.old wides.old signeds.old) model singleDeclaration text.now) }
    ensures answer_after { answer.new ≡ over (numbers_of (outcome_in (lent words.old wides.old signeds.old) model singleDeclaration text.now)) answer.old }
    ensures signeds_after { lent words.new wides.new signeds.new ≡ left_in (lent words.old wides.old signeds.old) (outcome_in (lent words.old wides.old signeds.old) model singleDeclaration text.now) }
{
    let outcome = declaration(text, model, words, wides, signeds);
    tell(outcome, answer)
}

// A whole header, in slices of which every number is 0 already: a caller that keeps them so does not pay for clearing them.
#[unsafe(no_mangle)]
pub extern "C" fn recordtable_unit_in_zeros(
    text: &[u8],
    model: u32,
    words: &mut [u32],
    wides: &mut [u64],
    signeds: &mut [i64],
    answer: &mut [u64],
) -> u32
    requires { lent words.old wides.old signeds.old ≡ zeroed (lent words.old wides.old signeds.old) }
    ensures value { result ≡ number_of (outcome_in (lent words.old wides.old signeds.old) model wholeHeader text.now) }
    ensures answer_after { answer.new ≡ over (numbers_of (outcome_in (lent words.old wides.old signeds.old) model wholeHeader text.now)) answer.old }
    ensures signeds_after { lent words.new wides.new signeds.new ≡ left_in (lent words.old wides.old signeds.old) (outcome_in (lent words.old wides.old signeds.old) model wholeHeader text.now) }
{
    let outcome = outcome_in_zeros(Entry::WholeHeader, text, model, words, wides, signeds);
    tell(outcome, answer)
}

// One declaration, in the same.
#[unsafe(no_mangle)]
pub extern "C" fn recordtable_declaration_in_zeros(
    text: &[u8],
    model: u32,
    words: &mut [u32],
    wides: &mut [u64],
    signeds: &mut [i64],
    answer: &mut [u64],
) -> u32
    requires { lent words.old wides.old signeds.old ≡ zeroed (lent words.old wides.old signeds.old) }
    ensures value { result ≡ number_of (outcome_in (lent words.old wides.old signeds.old) model singleDeclaration text.now) }
    ensures answer_after { answer.new ≡ over (numbers_of (outcome_in (lent words.old wides.old signeds.old) model singleDeclaration text.now)) answer.old }
    ensures signeds_after { lent words.new wides.new signeds.new ≡ left_in (lent words.old wides.old signeds.old) (outcome_in (lent words.old wides.old signeds.old) model singleDeclaration text.now) }
{
    let outcome = outcome_in_zeros(Entry::SingleDeclaration, text, model, words, wides, signeds);
    tell(outcome, answer)
}

// The listing of a whole header, or the line of its refusal, as far as it fits; answers the length of it.
#[unsafe(no_mangle)]
pub extern "C" fn recordtable_unit_report(
    text: &[u8],
    model: u32,
    words: &mut [u32],
    wides: &mut [u64],
    signeds: &mut [i64],
    out: &mut [u8],
) -> usize
    ensures wrote { Wrote (printed_outcome model text.now (outcome_in (lent words.old wides.old signeds.old) model wholeHeader text.now)) out.old 0 out.new result }
    ensures signeds_after { lent words.new wides.new signeds.new ≡ left_in (lent words.old wides.old signeds.old) (outcome_in (lent words.old wides.old signeds.old) model wholeHeader text.now) }
{
    report(Entry::WholeHeader, text, model, words, wides, signeds, out)
}

// The same of one declaration.
#[unsafe(no_mangle)]
pub extern "C" fn recordtable_declaration_report(
    text: &[u8],
    model: u32,
    words: &mut [u32],
    wides: &mut [u64],
    signeds: &mut [i64],
    out: &mut [u8],
) -> usize
    ensures wrote { Wrote (printed_outcome model text.now (outcome_in (lent words.old wides.old signeds.old) model singleDeclaration text.now)) out.old 0 out.new result }
    ensures signeds_after { lent words.new wides.new signeds.new ≡ left_in (lent words.old wides.old signeds.old) (outcome_in (lent words.old wides.old signeds.old) model singleDeclaration text.now) }
{
    report(
        Entry::SingleDeclaration,
        text,
        model,
        words,
        wides,
        signeds,
        out,
    )
}
