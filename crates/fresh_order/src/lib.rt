// The order of a fresh disk's entries: definitions and laws only, no code.
#![tactic(auto)]
