// The paper's examples, evaluated: definitions and statements only, no code.
#![tactic(auto)]
