#![tactic(auto)]
// Lemmas on truth values, tests and lists that many crates use, in proofs/. There is no code here.
