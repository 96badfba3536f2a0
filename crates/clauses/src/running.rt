// A circuit that is either of two. Each answer matches on which, so that what asks a comparison's circuit need not.
ghost use Rattle.std.specs.Prelude.{◌≡◌};

use circuits::circuit::{Circuit, Gate};
use circuits::counts::Counts;
use circuits::pin::Pin;

#[derive(Clone, Copy, Debug, PartialEq, Eq)]
pub(crate) enum Running<'a, O: Circuit, G: Circuit> {
    Original(&'a O),
    Gated(&'a G),
}

impl<'a, O: Circuit, G: Circuit> Circuit for Running<'a, O, G> {
    ghost use Rattle.clauses.specs.declared.running.Running.TheVariants.{Original, Gated};

    ghost meaning = { elim [ Original o ↦ O.Circuit.meaning o.now | Gated g ↦ G.Circuit.meaning g.now ] };

    ghost bounded = { elim [ Original o ↦ O.Circuit.bounded o.now | Gated g ↦ G.Circuit.bounded g.now ] };

    fn counts(&self) -> Counts {
        match self {
            Running::Original(circuit) => circuit.counts(),
            Running::Gated(circuit) => circuit.counts(),
        }
    }

    fn gate(&self, i: u32) -> Gate {
        match self {
            Running::Original(circuit) => circuit.gate(i),
            Running::Gated(circuit) => circuit.gate(i),
        }
    }

    fn next(&self, j: u32) -> u32 {
        match self {
            Running::Original(circuit) => circuit.next(j),
            Running::Gated(circuit) => circuit.next(j),
        }
    }

    fn pin(&self, j: u32) -> Pin {
        match self {
            Running::Original(circuit) => circuit.pin(j),
            Running::Gated(circuit) => circuit.pin(j),
        }
    }

    fn out(&self, j: u32) -> u32 {
        match self {
            Running::Original(circuit) => circuit.out(j),
            Running::Gated(circuit) => circuit.out(j),
        }
    }
}
