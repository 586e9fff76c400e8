// Theorems about the gates: no code.
#![tactic(auto)]
