// A circuit with dummy flops after its own.
ghost use Rattle.std.specs.Prelude.{◌≡◌, ◌≤◌, length, OnOk};
ghost use Rattle.circuits.specs.Checks.{unless_due};
ghost use Rattle.circuits.specs.Net.{top};
ghost use Rattle.circuits.specs.Renumbered.{renumbered};
ghost use Rattle.circuits.specs.Padded.{padded, Fitting, moved_up, PaddingLaws};
ghost use Rattle.circuits.proofs.Paddings.{Fitting-prop, padded_bounded};
ghost use Rattle.layers.specs.Padding.{count_checks, dummy_checks, each_checked, pad_checks, padding, PadsFitting};
ghost use Rattle.layers.specs.PaddedAnswers.{NextRaised, Found};
ghost use Rattle.layers.specs.Layers.{meant};

use crate::fault::PadFault;
use circuits::circuit::{Circuit, Gate};
use circuits::counts::{Counts, MOST_FLOPS};
use circuits::dummy::Dummy;
use circuits::kind::NetKind;
use circuits::pin::Pin;

pub const MOST_DUMMIES: usize = 16;

// The circuit below with a flop for each lent dummy. The dummies fit it, so no answer judges them again.
#[derive(Drop)]
pub struct Padded<'a, 'd, C: Circuit> {
    below: &'a C,
    dummies: &'d [Dummy],
    ghost fits: { Fitting (C.Circuit.meaning below.now).counts dummies.now } by { Fitting-prop (C.Circuit.meaning below.now).counts _ },
}

fn judge_count(counts: Counts, dummies: usize) -> Result<(), PadFault>
    ensures { result ≡ unless_due (count_checks counts dummies) tt }
{
    if dummies > MOST_DUMMIES {
        return Err(PadFault::ManyDummies);
    }
    if counts.flops as usize + dummies > MOST_FLOPS as usize {
        return Err(PadFault::ManyFlops);
    }
    Ok(())
}

fn judge_dummy(counts: Counts, k: u32, dummy: &Dummy) -> Result<(), PadFault>
    ensures { result ≡ unless_due (dummy_checks counts k dummy.now) tt }
{
    if u64::from(dummy.next) > counts.largest_literal() {
        return Err(PadFault::LargeLiteral(k));
    }
    if Pin::try_from(dummy.pin).is_err() {
        return Err(PadFault::LargePin(k));
    }
    Ok(())
}

fn judge_dummies(counts: Counts, dummies: &[Dummy]) -> Result<(), PadFault>
    requires { length dummies.now ≤ 16 }
    ensures { result ≡ unless_due (each_checked counts 0 dummies.now) tt }
{
    for (k, dummy) in dummies.iter().enumerate() {
        judge_dummy(counts, k as u32, dummy)?;
    }
    Ok(())
}

// Judges the dummies for a circuit of these counts; those that pass fit it. Counts and dummies come apart: a struct of both would only be
// taken apart again.
#[tactic(auto, using(crate::proofs::Pads::passed_fits))]
fn judge(counts: Counts, dummies: &[Dummy]) -> Result<(), PadFault>
    ensures answer { result ≡ unless_due (pad_checks counts dummies.now) tt }
    ensures fits { OnOk result (Fitting counts dummies.now) }
{
    judge_count(counts, dummies.len())?;
    judge_dummies(counts, dummies)
}

impl<'a, 'd, C: Circuit> Padded<'a, 'd, C> {
    // The circuit below with these dummies, or why not: the number of dummies is judged first, then each dummy, its literal before
    // its pin.
    #[tactic(auto, using(crate::proofs::Pads::pads_fitting))]
    pub fn new(below: &'a C, dummies: &'d [Dummy]) -> Result<Padded<'a, 'd, C>, PadFault>
        ensures answer { meant (λ p. ⟦<Padded<'a, 'd, C> as Circuit>⟧.meaning p) result
            ≡ padding (C.Circuit.meaning below.now) dummies.now }
        ensures exact { PadsFitting (C.Circuit.meaning below.now).counts dummies.now }
        ensures laws { OnOk result (PaddingLaws (C.Circuit.meaning below.now) dummies.now) }
    {
        judge(below.counts(), dummies)?;
        Ok(Padded { below, dummies })
    }

    // A literal of the circuit below; gates' nets move up.
    fn literal(&self, x: u32) -> u32
        requires { x ≤ top (C.Circuit.meaning self.now.below.now).counts }
        ensures { result ≡ renumbered (moved_up (C.Circuit.meaning self.now.below.now).counts (length self.now.dummies.now)) x }
    {
        match self.below.counts().kind(x / 2) {
            NetKind::False | NetKind::Input(_) | NetKind::Flop(_) => x,
            NetKind::Gate(_) => x + 2 * self.dummies.len() as u32,
        }
    }

    // The dummy that flop j is, if it is one.
    #[tactic(auto, using(crate::proofs::Pads::own_found, crate::proofs::Pads::lookup_found))]
    fn dummy(&self, j: u32) -> Option<Dummy>
        ensures { Found (C.Circuit.meaning self.now.below.now) self.now.dummies.now j result }
    {
        let Counts { flops, .. } = self.below.counts();
        let k = j.checked_sub(flops)?;
        self.dummies.get(k as usize).copied()
    }

    // The next literal of flop j, numbered as in the circuit below.
    fn next_below(&self, j: u32) -> u32
        ensures { NextRaised (C.Circuit.meaning self.now.below.now) self.now.dummies.now j result }
    {
        match self.dummy(j) {
            Some(dummy) => dummy.next,
            None => self.below.next(j),
        }
    }
}

impl<'a, 'd, C: Circuit> Circuit for Padded<'a, 'd, C> {
    ghost meaning = { λ x. padded (C.Circuit.meaning x.below.now) x.dummies.now };

    ghost bounded = { λ x. padded_bounded (C.Circuit.meaning x.below.now) x.dummies.now (C.Circuit.bounded x.below.now) x.fits };

    fn counts(&self) -> Counts {
        let counts = self.below.counts();
        Counts {
            flops: counts.flops + self.dummies.len() as u32,
            ..counts
        }
    }

    // Written out here and in a matching, as is `out`: shared, each would be a function that takes a closure and says at which literals
    // it may be called, and what it then answers.
    fn gate(&self, i: u32) -> Gate {
        let Gate { left, right } = self.below.gate(i);
        Gate {
            left: self.literal(left),
            right: self.literal(right),
        }
    }

    fn next(&self, j: u32) -> u32 {
        self.literal(self.next_below(j))
    }

    fn pin(&self, j: u32) -> Pin {
        match self.dummy(j) {
            // The word of a dummy that fits is that of a pin.
            Some(dummy) => Pin::try_from(dummy.pin).unwrap(),
            None => self.below.pin(j),
        }
    }

    fn out(&self, j: u32) -> u32 {
        self.literal(self.below.out(j))
    }
}
