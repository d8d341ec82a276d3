// Lists of bytes laid one behind the other: definitions and laws only, no code.
#![tactic(auto)]
