// What a circuit is, and the interface by which circuits of every kind are known.
#![tactic(auto)]

pub mod circuit;
pub mod counts;
pub mod dummy;
pub mod kind;
pub mod numbered;
pub mod pin;
pub mod side;
