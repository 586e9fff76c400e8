// The ways of going through a row, for definitions and laws: no code.
#![tactic(auto)]
