// Demand 2 (RULES 'Demands') over the functions for C, kind by kind.
// There is no code here, only the claims (specs/) and their proofs (proofs/).
#![tactic(auto)]
