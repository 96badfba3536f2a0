// What is told of a circuit of any kind.
ghost use Rattle.std.specs.Prelude.{◌≡◌, length, Some, nat_eq};
ghost use Rattle.aiger.specs.Reading.{reading, words_after};
ghost use Rattle.circuits.specs.Net.{pin_at};
ghost use Rattle.circuits.specs.Pins.{pin_word};
ghost use Rattle.checker.specs.Summary as spec;

use netlists::{Circuit, Counts, Pin, Plain, ReadFault, read};
use std::fmt;

// The counts of a circuit, and how many of its flops have pin 0, pin 1 and none.
#[derive(Clone, Copy, Debug, PartialEq, Eq)]
pub struct Summary {
    pub counts: Counts,
    pub zeros: u32,
    pub ones: u32,
    pub free: u32,
}

fn has_pin<C: Circuit>(circuit: &C, flop: u32, pin: Pin) -> bool
    ensures { result ≡ nat_eq (pin_at (C.Circuit.meaning circuit.now) flop) (pin_word pin) }
{
    circuit.pin(flop) == pin
}

// How many flops have this pin. A loop, since the compiler makes no vectors of `filter(..).count()`, which takes nine times as long.
fn flops_with<C: Circuit>(circuit: &C, pin: Pin) -> u32
    ensures { result ≡ spec.flops_with (pin_word pin) (C.Circuit.meaning circuit.now) }
{
    let mut count = 0;
    for j in 0..circuit.counts().flops {
        if has_pin(circuit, j, pin) {
            count += 1;
        }
    }
    count
}

impl Summary {
    pub fn of<C: Circuit>(circuit: &C) -> Summary
        ensures { result ≡ spec.summary (C.Circuit.meaning circuit.now) }
    {
        Summary {
            counts: circuit.counts(),
            zeros: flops_with(circuit, Pin::Zero),
            ones: flops_with(circuit, Pin::One),
            free: flops_with(circuit, Pin::Free),
        }
    }

    // Reads a netlist into the lent words, and sums up the circuit in them.
    pub(crate) fn of_text(text: &[u8], words: &mut [u32]) -> Result<Summary, ReadFault>
        ensures answer { result ≡ spec.summed (reading (length words.old) text.now) }
        ensures written { words.new ≡ words_after (reading (length words.old) text.now) words.old }
    {
        let counts = read(text, words)?;
        let plain = Plain::new(counts, words);
        Ok(Summary::of(&plain))
    }
}

impl fmt::Display for Summary {
    ghost output = { λ s. Some (spec.told s) };

    fn fmt<W: fmt::Write>(&self, f: &mut fmt::Formatter<W>) -> fmt::Result {
        let Summary {
            counts,
            zeros,
            ones,
            free,
        } = *self;
        write!(
            f,
            "{counts} pinned-0 {zeros} pinned-1 {ones} unpinned {free}"
        )
    }
}
