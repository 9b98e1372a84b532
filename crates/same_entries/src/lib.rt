#![tactic(auto)]
// The entries of two lists compared: "rows are equal as the Rust's types are", entry by entry. The entries of a list are the first so many, from
// its first on, that carry its row, or its mark while the row is not known.
ghost use Rattle.std.specs.Prelude.{drop};
ghost use Rattle.definition.specs.Table.{carrying};
ghost use Rattle.definition.specs.Types.{pairwise, same_member, same_value, same_parameter};
ghost use Rattle.table.specs.Held.{member_at, value_at, parameter_at};
ghost use Rattle.same_entries.specs.Entries.{NoTable, Next, Pairs, MembersSay, ValuesSay, ParametersSay, MembersCompare, ValuesCompare, ParametersCompare};

use encoding::regions::WORDS;
use model::Model;
use table::{
    member_name, member_offset, member_row, member_type, member_width, parameter_name,
    parameter_row, parameter_type, value_at, value_name, value_row,
};

// ---- lists of any kind

// No table stands in a shorter slice, or has more entries than the limit. Where both are tested once, no later read tests its index.
fn is_short(w: &[u32]) -> bool
    ensures { NoTable w.now result }
{
    w.len() < WORDS
}

// The first entry from a number on that carries a row.
fn next_entry<R: Fn(usize) -> u32>(row_of: &R, count: usize, from: usize, row: u32) -> Option<usize>
    requires { (i : _) → R.pre row_of.now i }
    ensures { Next (R.post row_of.now) row from count result }
{
    (from..count).find(|i| row_of(*i) == row)
}

// The entries of a mark, from `first` on, and those of a row, from `other` on.
fn same_lists<R: Fn(usize) -> u32, S: Fn(usize, usize) -> bool>(
    row_of: R,
    same: S,
    count: usize,
    mark: u32,
    first: usize,
    row: u32,
    other: usize,
    entries: u32,
) -> bool
    requires reads { (i : _) → R.pre row_of i }
    requires compares { (a b : _) → S.pre same a b }
    ensures { Pairs (R.post row_of) (S.post same) count mark first row other entries result }
{
    let mut i = first;
    let mut j = other;
    for _ in 0..entries {
        let Some(a) = next_entry(&row_of, count, i, mark) else {
            return next_entry(&row_of, count, j, row).is_none();
        };
        let Some(b) = next_entry(&row_of, count, j, row) else {
            return false;
        };
        if !same(a, b) {
            return false;
        }
        i = a + 1;
        j = b + 1;
    }
    true
}

// ---- members

#[tactic(auto, unfolding(definition::specs::Types::same_member))]
fn same_member(w: &[u32], d: &[u64], a: usize, b: usize) -> bool
    ensures { MembersSay (λ t. same_member (member_at t a) (member_at t b)) w.now d.now result }
{
    member_type(w, a) == member_type(w, b)
        && (member_name(w, a) == member_name(w, b)
            && (member_width(w, a) == member_width(w, b)
                && member_offset(d, a) == member_offset(d, b)))
}

pub fn same_members(
    w: &[u32],
    d: &[u64],
    count: usize,
    mark: u32,
    first: usize,
    row: u32,
    other: usize,
    entries: u32,
) -> bool
    ensures { MembersCompare count (λ t. pairwise same_member (carrying (λ e. e.row) mark entries (drop first t.members)) (carrying (λ e. e.row) row entries (drop other t.members))) w.now d.now result }
{
    if Model::MAX_MEMBERS < count {
        return false;
    }
    if is_short(w) {
        return false;
    }
    same_lists(
        |i| member_row(w, i),
        |a, b| same_member(w, d, a, b),
        count,
        mark,
        first,
        row,
        other,
        entries,
    )
}

// ---- values

#[tactic(auto, unfolding(definition::specs::Types::same_value))]
fn same_value(w: &[u32], v: &[i64], a: usize, b: usize) -> bool
    ensures { ValuesSay (λ t. same_value (value_at t a) (value_at t b)) w.now v.now result }
{
    value_name(w, a) == value_name(w, b) && value_at(v, a) == value_at(v, b)
}

pub fn same_values(
    w: &[u32],
    v: &[i64],
    count: usize,
    mark: u32,
    first: usize,
    row: u32,
    other: usize,
    entries: u32,
) -> bool
    ensures { ValuesCompare count (λ t. pairwise same_value (carrying (λ e. e.row) mark entries (drop first t.values)) (carrying (λ e. e.row) row entries (drop other t.values))) w.now v.now result }
{
    if Model::MAX_VALUES < count {
        return false;
    }
    if is_short(w) {
        return false;
    }
    same_lists(
        |i| value_row(w, i),
        |a, b| same_value(w, v, a, b),
        count,
        mark,
        first,
        row,
        other,
        entries,
    )
}

// ---- parameters

// Both numbers stand side by side: two reads cost less than a branch.
#[tactic(auto, unfolding(definition::specs::Types::same_parameter))]
fn same_parameter(w: &[u32], a: usize, b: usize) -> bool
    ensures { ParametersSay (λ t. same_parameter (parameter_at t a) (parameter_at t b)) w.now result }
{
    (parameter_type(w, a) == parameter_type(w, b)) & (parameter_name(w, a) == parameter_name(w, b))
}

pub fn same_parameters(
    w: &[u32],
    count: usize,
    mark: u32,
    first: usize,
    row: u32,
    other: usize,
    entries: u32,
) -> bool
    ensures { ParametersCompare count (λ t. pairwise same_parameter (carrying (λ e. e.row) mark entries (drop first t.parameters)) (carrying (λ e. e.row) row entries (drop other t.parameters))) w.now result }
{
    if Model::MAX_PARAMETERS < count {
        return false;
    }
    if is_short(w) {
        return false;
    }
    same_lists(
        |i| parameter_row(w, i),
        |a, b| same_parameter(w, a, b),
        count,
        mark,
        first,
        row,
        other,
        entries,
    )
}
