// Tables of clauses: the sizes, the numbers of the refusals, literals, clauses, the table check and the look-up.
#![tactic(auto)]

pub mod check;
pub mod clause;
pub mod literal;
pub mod lookup;
pub mod numbers;
pub mod rows;
pub mod sizes;
pub mod values;
