#![tactic(auto)]
// Document 01's examples, computed over the definition: specs/Examples.antt. There is no code here.
