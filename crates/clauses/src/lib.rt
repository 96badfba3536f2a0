// A comparison of two circuits: the plans of each rule, what each clause is about, and the literals of clauses.
#![tactic(auto)]

pub mod comparison;
pub mod fixed;
mod literal;
pub mod part;
pub mod plan;
mod running;
pub mod shape;
