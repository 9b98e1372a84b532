#![tactic(auto)]
// The numbers by which the reader names things. Each stands here once, and is proved to be the definition's: constants in a list beside them, the values of an enum in its `From`.
pub mod ascii;
pub mod names;
pub mod other_kind;
pub mod range;
pub mod refusals;
pub mod regions;
pub mod row_kinds;
pub mod span;
pub mod storage;
pub mod token_kinds;
