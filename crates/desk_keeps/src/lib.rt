// What one replacement of the desk keeps, proved of its definition: statements and laws only, no code.
#![tactic(auto)]
