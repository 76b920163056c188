// The values of RULES 'Values', held against the definitions of every layer.
// There is no code here, only the table (specs/) and its proof (proofs/).
#![tactic(auto)]
