// The file that gencmd writes loads, with the bytes that its lines gave: statements and laws only, no code.
#![tactic(auto)]
