#![tactic(auto)]
// Demand 3 over the definition: specs/ has the claim and its conditions, proofs/ the theorem. There is no code here.
