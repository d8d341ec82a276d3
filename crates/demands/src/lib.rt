// The user's three demands, stated and proved of the calls' definitions: statements and laws only, no code.
#![tactic(auto)]
