// What is asked of a circuit.
ghost use Rattle.std.specs.Prelude.{◌≡◌};
ghost use Rattle.circuits.specs.Net.{Net, Bounded, gate_at, next_at, pin_at, out_at};
ghost use Rattle.circuits.specs.Pins.{pin_word};

use crate::counts::Counts;
use crate::pin::Pin;

// The operands of a gate.
#[derive(Clone, Copy, Debug, PartialEq, Eq)]
pub struct Gate {
    pub left: u32,
    pub right: u32,
}

// A circuit is known by its answers. Indices start at 0; past the end a gate's operands are 0, a literal is 0 and a pin free.
// It is asked by shared reference, so no question changes it.
pub trait Circuit {
    // What the circuit is: one value, from which every answer is looked up.
    ghost meaning: { Self → Net };

    // Every meaning keeps all bounds.
    ghost bounded: { (x : Self) → Bounded (meaning x) };

    fn counts(&self) -> Counts
        ensures { result ≡ (meaning self.now).counts };

    // The operands of gate i.
    fn gate(&self, i: u32) -> Gate
        ensures left { result.left ≡ (gate_at (meaning self.now) i).0 }
        ensures right { result.right ≡ (gate_at (meaning self.now) i).1 };

    // The next literal of flop j.
    fn next(&self, j: u32) -> u32
        ensures { result ≡ next_at (meaning self.now) j };

    // The pin of flop j.
    fn pin(&self, j: u32) -> Pin
        ensures { pin_word result ≡ pin_at (meaning self.now) j };

    // The literal of output j.
    fn out(&self, j: u32) -> u32
        ensures { result ≡ out_at (meaning self.now) j };
}
