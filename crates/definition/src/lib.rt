#![tactic(auto)]
// The definition of the reader, in specs/. There is no code here: the crates above are proved equal to it.
