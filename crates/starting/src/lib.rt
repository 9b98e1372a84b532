#![tactic(auto)]
// The first table, in proofs/: slices of zeros hold it. There is no code here.
