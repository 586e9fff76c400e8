// Theorems about the rounds: no code.
#![tactic(auto)]
