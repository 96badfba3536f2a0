// Lent words, cut into the parts of a circuit.
ghost use Rattle.std.specs.Prelude.{◌≡◌, ◌<◌, ◌≤◌, length, slice_index, Decides, IfSome, IfNone, All};
ghost use Rattle.circuits.specs.Net.{Bounded, OperandsLow};
ghost use Rattle.circuits.specs.Held.{Holds, net_in};
ghost use Rattle.netlists.specs.Plain.{SomeHeld};

use circuits::counts::Counts;

// The operands of each gate, the next literals, the pins and the output literals, as many as the counts say: rows of lent words, so next
// literals and pins are not one row of pairs.
#[derive(Clone, Copy, Debug, PartialEq, Eq)]
pub struct Sections<'a> {
    pub counts: Counts,
    pub operands: &'a [[u32; 2]],
    pub nexts: &'a [u32],
    pub pins: &'a [u32],
    pub outs: &'a [u32],
    ghost all_operands: { length operands.now ≡ counts.gates },
    ghost all_nexts: { length nexts.now ≡ counts.flops },
    ghost all_pins: { length pins.now ≡ counts.flops },
    ghost all_outs: { length outs.now ≡ counts.outputs },
}

// Whether no word of a row is above the limit.
fn at_most(row: &[u32], limit: u64) -> bool
    ensures { Decides result (All (λ x. x ≤ limit) row.now) }
{
    row.iter().all(|word| u64::from(*word) <= limit)
}

// Whether both words of a pair are below the limit.
fn both_below(pair: &[u32; 2], limit: u64) -> bool
    ensures { Decides result ((slice_index pair.now 0 < limit) × (slice_index pair.now 1 < limit)) }
{
    let [left, right] = *pair;
    u64::from(left) < limit && u64::from(right) < limit
}

impl<'a> Sections<'a> {
    ghost use Rattle.netlists.specs.Sections.{net_of};

    // The first words, where there are enough of them. They hold a circuit of these counts where the sections keep all bounds.
    pub fn cut(counts: Counts, words: &'a [u32]) -> Option<Sections<'a>>
        ensures by_place { IfSome result (λ s. net_of s ≡ net_in counts words.now) }
        ensures held { IfSome result (λ s. Bounded (net_of s) → Holds counts words.now (net_of s)) }
        ensures bounded { IfSome result (λ s. SomeHeld counts words.now → Bounded (net_of s)) }
        ensures too_few { IfNone result (¬ SomeHeld counts words.now) }
    {
        if counts.room() > words.len() as u64 {
            return None;
        }
        let (operands, rest) = words.split_at(2 * counts.gates as usize);
        let (nexts, rest) = rest.split_at(counts.flops as usize);
        let (pins, rest) = rest.split_at(counts.flops as usize);
        let (outs, _) = rest.split_at(counts.outputs as usize);
        let (operands, _) = operands.as_chunks::<2>();
        Some(Sections {
            counts,
            operands,
            nexts,
            pins,
            outs,
        })
    }

    // Whether the operands of each gate are below its own literal.
    fn operands_low(&self) -> bool
        ensures { Decides result (OperandsLow (net_of self.now)) }
    {
        let first = 2 * (1 + u64::from(self.counts.inputs) + u64::from(self.counts.flops));
        let mut pairs = self.operands.iter().enumerate();
        pairs.all(|(i, pair)| both_below(pair, first + 2 * i as u64))
    }

    // Whether the words keep all bounds on a circuit.
    pub fn keep_bounds(&self) -> bool
        ensures { Decides result (Bounded (net_of self.now)) }
    {
        let top = self.counts.largest_literal();
        self.counts.in_bounds()
            && self.operands_low()
            && at_most(self.nexts, top)
            && at_most(self.pins, 2)
            && at_most(self.outs, top)
    }
}
