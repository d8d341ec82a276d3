// Sigla by column as theorems over runs: after file calls, and mixed with them; statements and proofs only, no code.
#![tactic(auto)]
