// The unskewed volume of an image: what each room reads on the one it reads on the other; statements and laws only, no code.
#![tactic(auto)]
