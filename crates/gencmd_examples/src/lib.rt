// Hex texts worked out by hand, and what becomes of them, evaluated: definitions and statements only, no code.
#![tactic(auto)]
