ghost use Rattle.std.specs.Prelude.{◌≡◌, ◌<◌};
ghost use Rattle.circuits.specs.Net.{BoundedCounts};
ghost use Rattle.circuits.specs.Net as spec;

use circuits::counts::Counts;

// A netlist's counts, once they are known to keep their bounds.
#[derive(Clone, Copy, Debug, PartialEq, Eq)]
pub struct Sizes {
    pub counts: Counts,
    ghost bounded: { BoundedCounts counts },
}

impl Sizes {
    // The own literal of input `i`: after net 0 come the inputs, the flops and the gates, each literal twice its net.
    pub(crate) fn input_literal(self, i: u32) -> u32
        requires { i < self.counts.inputs }
        ensures { result ≡ spec.input_literal i }
    {
        2 * (1 + i)
    }

    // The own literal of flop `j`.
    pub(crate) fn flop_literal(self, j: u32) -> u32
        requires { j < self.counts.flops }
        ensures { result ≡ spec.flop_literal self.counts j }
    {
        2 * (1 + self.counts.inputs + j)
    }

    // The own literal of gate `i`.
    pub(crate) fn gate_literal(self, i: u32) -> u32
        requires { i < self.counts.gates }
        ensures { result ≡ spec.gate_literal self.counts i }
    {
        2 * (1 + self.counts.inputs + self.counts.flops + i)
    }
}
