// Piling layers on a circuit.
use crate::layer::Layer;
use crate::told::{tell, tell_refusal};
use netlists::{Circuit, Matched, Numbered, Padded};
use std::fmt;

// What is done with a circuit of whatever kind.
pub(crate) trait Visit {
    fn visit<C: Circuit>(&self, rt: &HostRuntime, circuit: &C) -> anyhow::Result<()>;
}

// Tells of the circuit.
#[derive(Clone, Copy, Debug, PartialEq, Eq)]
pub(crate) struct Tell;

// Visits the circuit under this layer, or tells why there is none.
#[derive(Clone, Copy, Debug, PartialEq, Eq)]
pub(crate) struct Under<'l, V>(pub &'l Layer, pub V);

impl Visit for Tell {
    fn visit<C: Circuit>(&self, rt: &HostRuntime, circuit: &C) -> anyhow::Result<()> {
        tell(rt, circuit)
    }
}

// Visits the circuit that a layer made, or tells why there is none.
fn visit_made<C: Circuit + Drop, F: Numbered + fmt::Display + Drop, V: Visit>(
    rt: &HostRuntime,
    made: Result<C, F>,
    then: &V,
) -> anyhow::Result<()> {
    match made {
        Ok(circuit) => then.visit(rt, &circuit),
        Err(fault) => tell_refusal(rt, &fault),
    }
}

impl<'l, V: Visit> Visit for Under<'l, V> {
    fn visit<C: Circuit>(&self, rt: &HostRuntime, circuit: &C) -> anyhow::Result<()> {
        match self.0 {
            Layer::Pad(dummies) => {
                visit_made(rt, Padded::new(circuit, dummies.as_slice()), &self.1)
            }
            Layer::Match(order) => {
                visit_made(rt, Matched::new(circuit, order.as_slice()), &self.1)
            }
        }
    }
}
