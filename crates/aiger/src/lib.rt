// AIGER text, read from bytes into lent words of 32 bits.
#![tactic(auto)]

pub mod fault;
mod flops;
mod gates;
mod inputs;
mod lines;
mod outputs;
pub mod reading;
mod section;
mod sizes;
