// Definitions and theorems alone: round trips of slips, demand 1 of slips, the reader before R-11, and their proofs.
#![tactic(auto)]
