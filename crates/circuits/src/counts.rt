ghost use Rattle.std.specs.Prelude.{◌≡◌, Some};
ghost use Rattle.circuits.specs.Net.{in_bounds, last_net, top};
ghost use Rattle.circuits.specs.Net as spec;
ghost use Rattle.circuits.specs.Told.{told_counts};

use std::fmt;

// The bounds of the counts; there is at least one output.
pub const MOST_INPUTS: u32 = 256;

pub const MOST_FLOPS: u32 = 256;

// The same as the length of an array.
pub const FLOPS: usize = MOST_FLOPS as usize;

pub const MOST_GATES: u32 = 8_192;

pub const MOST_OUTPUTS: u32 = 256;

// The words that suffice for every circuit: two for each gate and each flop, one for each output.
pub const MOST_WORDS: usize = (2 * MOST_GATES + 2 * MOST_FLOPS + MOST_OUTPUTS) as usize;

// How many inputs, flops, gates and outputs a circuit has.
#[derive(Clone, Copy, Debug, PartialEq, Eq)]
pub struct Counts {
    pub inputs: u32,
    pub flops: u32,
    pub gates: u32,
    pub outputs: u32,
}

impl Counts {
    // Whether each count keeps its bounds.
    pub fn in_bounds(self) -> bool
        ensures { result ≡ in_bounds self }
    {
        self.inputs <= MOST_INPUTS
            && self.flops <= MOST_FLOPS
            && self.gates <= MOST_GATES
            && self.outputs >= 1
            && self.outputs <= MOST_OUTPUTS
    }

    // The last net; 64 bits hold it for any counts.
    pub fn last_net(self) -> u64
        ensures { result ≡ last_net self }
    {
        u64::from(self.inputs) + u64::from(self.flops) + u64::from(self.gates)
    }

    // The literal that no other exceeds: the inverse of the last net.
    pub fn largest_literal(self) -> u64
        ensures { result ≡ top self }
    {
        2 * self.last_net() + 1
    }

    // The words that a circuit takes.
    pub fn room(self) -> u64
        ensures { result ≡ spec.room self }
    {
        2 * u64::from(self.gates) + 2 * u64::from(self.flops) + u64::from(self.outputs)
    }
}

impl fmt::Display for Counts {
    ghost output = { λ c. Some (told_counts c) };

    fn fmt<W: fmt::Write>(&self, f: &mut fmt::Formatter<W>) -> fmt::Result {
        let Counts {
            inputs,
            flops,
            gates,
            outputs,
        } = *self;
        write!(
            f,
            "inputs {inputs} flops {flops} gates {gates} outputs {outputs}"
        )
    }
}
