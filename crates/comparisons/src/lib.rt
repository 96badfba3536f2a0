// Comparisons of two circuits: the rules, what they compare, and the clauses that say that two rows of cycles differ.
#![tactic(auto)]

pub mod clauses;
pub mod fault;
pub mod machines;
pub mod rule;
