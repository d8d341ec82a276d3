// Sums over a run of numbers, with their laws: definitions and laws only, no code.
#![tactic(auto)]
