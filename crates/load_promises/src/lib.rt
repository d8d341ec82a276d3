// What holds of load, and of runs of memory calls and loads: statements and laws only, no code.
#![tactic(auto)]
