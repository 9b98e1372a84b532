#![tactic(auto)]
// Laws of the definition, in specs/ and proofs/. There is no code here.
