// Netlists: AIGER text, and circuits of every kind under one interface. Whoever is above needs this crate alone: what stands in the
// crates below is passed on.
#![tactic(auto)]

pub mod plain;
mod sections;
#[cfg(test)]
mod tests;

pub use aiger::fault::{ReadFault, Refusal};
pub use aiger::reading::read;
pub use circuits::circuit::{Circuit, Gate};
pub use circuits::counts::{Counts, MOST_WORDS};
pub use circuits::dummy::Dummy;
pub use circuits::kind::NetKind;
pub use circuits::numbered::Numbered;
pub use circuits::pin::{NoPin, Pin};
pub use circuits::side::Side;
pub use layers::fault::{MatchFault, PadFault};
pub use layers::matched::Matched;
pub use layers::padded::Padded;
pub use plain::Plain;
