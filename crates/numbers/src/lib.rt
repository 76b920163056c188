// What several layers share: exclusive or and bits of numbers, two's complement, what writing leaves in lent memory, and parts of it.
// There is no code here, only definitions (specs/) and laws (proofs/).
#![tactic(auto)]
