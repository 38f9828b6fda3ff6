// Theorems over the panel's rules: the statements stand in specs/, their proofs in proofs/. It has no code.
#![tactic(auto)]
