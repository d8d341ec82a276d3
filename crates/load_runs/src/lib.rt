// Memory calls and loads over the bytes that C lends: statements and laws only, no code.
#![tactic(auto)]
