#![tactic(auto)]
// The words of a declaration's specifiers, and the types that they make under a data model.
pub mod classes;
pub mod counts;
pub mod qualifiers;
pub mod specifiers;
pub mod storage;
pub mod types;
