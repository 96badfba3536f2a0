// Layers over any circuit: dummy flops after its own, and its flops in another order.
#![tactic(auto)]

pub mod fault;
pub mod matched;
mod order;
pub mod padded;
