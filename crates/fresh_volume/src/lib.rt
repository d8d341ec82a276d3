// The fresh disk: slots and blocks laid anew.
#![tactic(auto)]
