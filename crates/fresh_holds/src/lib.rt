// What holds of a fresh disk: statements and laws only, no code.
#![tactic(auto)]
