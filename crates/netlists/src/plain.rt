// A circuit in lent words.
ghost use Rattle.std.specs.Prelude.{◌↔◌, ◌≡◌, Decides, IsSome, IfSome};
ghost use Rattle.circuits.specs.Net.{Bounded};
ghost use Rattle.circuits.specs.Held.{Holds, blank};
ghost use Rattle.netlists.specs.Plain.{SomeHeld, StandsFor};
ghost use Rattle.netlists.specs.Sections.{net_of};
ghost use Rattle.circuits.proofs.HeldInWords.{bounded_once};

use crate::sections::Sections;
use circuits::circuit::{Circuit, Gate};
use circuits::counts::Counts;
use circuits::pin::Pin;

// A circuit of given counts, held in lent words: the operands of each gate, the next literals, the pins, the output literals. Later words
// are not looked at.
#[derive(Clone, Copy, Debug, PartialEq, Eq)]
pub struct Plain<'a> {
    sections: Sections<'a>,
    ghost bounded: { Bounded (net_of sections) } by { bounded_once (net_of sections) },
}

impl<'a> Plain<'a> {
    // The circuit of these counts that the words hold; where they hold none, the blank one, whose one output is false.
    // Counts and words come apart here and below, since a caller has them so: it lent the words, and reading answered the counts.
    #[tactic(auto, using(crate::proofs::Plains::stands_held))]
    pub fn new(counts: Counts, words: &'a [u32]) -> Plain<'a>
        ensures { StandsFor counts words.now (⟦<Plain<'a> as Circuit>⟧.meaning result) }
    {
        if let Some(plain) = Plain::checked(counts, words) {
            return plain;
        }
        Plain::blank()
    }

    // The same for who would rather refuse: none where the words hold no circuit of these counts.
    pub fn checked(counts: Counts, words: &'a [u32]) -> Option<Plain<'a>>
        ensures found { IsSome result ↔ SomeHeld counts words.now }
        ensures held { IfSome result (λ plain. Holds counts words.now (⟦<Plain<'a> as Circuit>⟧.meaning plain)) }
    {
        match Sections::cut(counts, words) {
            Some(sections) if sections.keep_bounds() => Some(Plain { sections }),
            _ => None,
        }
    }

    // Whether the words hold a circuit of these counts.
    pub fn holds(counts: Counts, words: &[u32]) -> bool
        ensures { Decides result (SomeHeld counts words.now) }
    {
        Plain::checked(counts, words).is_some()
    }

    fn blank() -> Plain<'a>
        ensures { ⟦<Plain<'a> as Circuit>⟧.meaning result ≡ blank }
    {
        let counts = Counts {
            inputs: 0,
            flops: 0,
            gates: 0,
            outputs: 1,
        };
        Plain {
            sections: Sections {
                counts,
                operands: &[],
                nexts: &[],
                pins: &[],
                outs: &[0],
            },
        }
    }
}

impl<'a> Circuit for Plain<'a> {
    ghost meaning = { λ x. net_of x.sections };

    ghost bounded = { λ x. x.bounded };

    fn counts(&self) -> Counts {
        self.sections.counts
    }

    fn gate(&self, i: u32) -> Gate {
        let [left, right] = self
            .sections
            .operands
            .get(i as usize)
            .copied()
            .unwrap_or([0, 0]);
        Gate { left, right }
    }

    fn next(&self, j: u32) -> u32 {
        self.sections.nexts.get(j as usize).copied().unwrap_or(0)
    }

    fn pin(&self, j: u32) -> Pin {
        let Sections { counts, pins, .. } = self.sections;
        if j >= counts.flops {
            return Pin::Free;
        }
        // Each pin of a bounded circuit is 0, 1 or 2.
        match pins[j as usize] {
            0 => Pin::Zero,
            1 => Pin::One,
            _ => Pin::Free,
        }
    }

    fn out(&self, j: u32) -> u32 {
        self.sections.outs.get(j as usize).copied().unwrap_or(0)
    }
}
