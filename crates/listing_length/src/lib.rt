#![tactic(auto)]
// How long the listing of an accepted text can be, in specs/ and proofs/. There is no code here.
