#![tactic(auto)]
// The index of names and the marks, taken out of the lent slices, and all that a refused text left.
ghost use Rattle.std.specs.Prelude.{◌≡◌, ◌+◌, ◌*◌, min, pos, length};
ghost use Rattle.definition.specs.Limit.{max_rows, max_values};
ghost use Rattle.definition.specs.Region.{words_length, wides_length, signeds_length, members_at, values_at, parameters_at, declarations_at, names_at};
ghost use Rattle.erasing.specs.Taken.{Out, NamesOut, RestOut, counted};
ghost use Rattle.erasing.specs.Erased.{IndexCleared, Erased};

use encoding::regions::{
    DECLARATION_COLUMNS, DECLARATIONS_AT, MEMBER_COLUMNS, MEMBER_WIDE_COLUMNS, MEMBER_WIDES_AT,
    MEMBERS_AT, NAMES_AT, PARAMETER_COLUMNS, PARAMETERS_AT, ROW_COLUMNS, SIGNEDS, VALUE_COLUMNS,
    VALUES_AT, WIDES, WORDS,
};
use model::Model;
use table::{LAST_DECLARATION, LAST_MEMBER, LAST_PARAMETER, LAST_ROW, LAST_VALUE, TOP};

// ---- what the marks count

// The entries up to the last: a mark of 0 may be that of the first one, or of none.
fn entries(mark: u32, most: usize) -> usize
    ensures { result ≡ min (mark + 1) most }
{
    (mark as usize + 1).min(most)
}

// The index ends where the marks begin.
fn clear_names(w: &mut [u32])
    requires { length w.old ≡ words_length }
    ensures { NamesOut w.old w.new }
{
    let end = (NAMES_AT + w[TOP] as usize).min(LAST_ROW);
    w[NAMES_AT..end].fill(0);
    w[LAST_ROW..WORDS].fill(0);
}

// The index and the marks taken out: the names' part is zero again. A slice of another length holds no table.
pub fn clear_index(w: &mut [u32])
    ensures { IndexCleared w.old w.new }
{
    if w.len() == WORDS {
        clear_names(w);
    }
}

// ---- what a refused text left

fn clear_rows(w: &mut [u32], d: &mut [u64])
    requires { (length w.old ≡ words_length) × (length d.old ≡ wides_length) }
    ensures { Out 0 0 (6 * counted w.old 0) (6 * max_rows) w.old w.new × Out 0 0 (counted w.old 0) max_rows d.old d.new }
{
    let rows = entries(w[LAST_ROW], Model::MAX_ROWS);
    w[..ROW_COLUMNS * rows].fill(0);
    d[..rows].fill(0);
}

fn clear_members(w: &mut [u32], d: &mut [u64])
    requires { (length w.old ≡ words_length) × (length d.old ≡ wides_length) }
    ensures { Out 0 members_at (members_at + 4 * counted w.old 1) values_at w.old w.new × Out 0 1024 (1024 + 2 * counted w.old 1) wides_length d.old d.new }
{
    let members = entries(w[LAST_MEMBER], Model::MAX_MEMBERS);
    w[MEMBERS_AT..MEMBERS_AT + MEMBER_COLUMNS * members].fill(0);
    d[MEMBER_WIDES_AT..MEMBER_WIDES_AT + MEMBER_WIDE_COLUMNS * members].fill(0);
}

fn clear_values(w: &mut [u32], v: &mut [i64])
    requires { (length w.old ≡ words_length) × (length v.old ≡ signeds_length) }
    ensures { Out 0 values_at (values_at + 2 * counted w.old 2) parameters_at w.old w.new × Out (pos 0) 0 (counted w.old 2) max_values v.old v.new }
{
    let values = entries(w[LAST_VALUE], Model::MAX_VALUES);
    w[VALUES_AT..VALUES_AT + VALUE_COLUMNS * values].fill(0);
    v[..values].fill(0);
}

fn clear_parameters(w: &mut [u32])
    requires { length w.old ≡ words_length }
    ensures { Out 0 parameters_at (parameters_at + 3 * counted w.old 3) declarations_at w.old w.new }
{
    let parameters = entries(w[LAST_PARAMETER], Model::MAX_PARAMETERS);
    w[PARAMETERS_AT..PARAMETERS_AT + PARAMETER_COLUMNS * parameters].fill(0);
}

fn clear_declarations(w: &mut [u32])
    requires { length w.old ≡ words_length }
    ensures { Out 0 declarations_at (declarations_at + 3 * counted w.old 4) names_at w.old w.new }
{
    let declarations = entries(w[LAST_DECLARATION], Model::MAX_DECLARATIONS);
    w[DECLARATIONS_AT..DECLARATIONS_AT + DECLARATION_COLUMNS * declarations].fill(0);
}

// All of w after the values.
fn clear_rest(w: &mut [u32])
    requires { length w.old ≡ words_length }
    ensures { RestOut w.old w.new }
{
    clear_parameters(w);
    clear_declarations(w);
    clear_names(w);
}

// What a refused text left, taken out: all is zero again. Only what the marks say was written is cleared, since clearing all takes longer than reading a short text.
pub fn clear_left(w: &mut [u32], d: &mut [u64], v: &mut [i64])
    ensures { Erased w.old d.old v.old w.new d.new v.new }
{
    if w.len() != WORDS || d.len() != WIDES || v.len() != SIGNEDS {
        return;
    }
    clear_rows(w, d);
    clear_members(w, d);
    clear_values(w, v);
    clear_rest(w);
}
