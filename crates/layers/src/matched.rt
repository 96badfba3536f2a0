// A circuit with its flops in another order.
ghost use Rattle.std.specs.Prelude.{◌≡◌, OnOk};
ghost use Rattle.circuits.specs.Renumbered.{renumbered};
ghost use Rattle.circuits.specs.Matched.{place, flops_moved, matched, InSomeOrder, MatchingLaws};
ghost use Rattle.circuits.proofs.Matchings.{matched_bounded};
ghost use Rattle.layers.specs.Layers.{meant};
ghost use Rattle.layers.specs.Matching.{matching, MatchesOrders};
ghost use Rattle.layers.specs.MatchedAnswers.{StandsAt};
ghost use Rattle.layers.specs.Orders.{PlacesOf};

use crate::fault::MatchFault;
use crate::order::{judge_flops, places_in};
use circuits::circuit::{Circuit, Gate};
use circuits::counts::{Counts, FLOPS};
use circuits::kind::NetKind;
use circuits::pin::Pin;

// The circuit below, whose flop `order[j]` is flop j here. The place of each flop is kept beside the order, so that no answer
// searches: in an array, since no library here uses the heap.
#[derive(Drop)]
pub struct Matched<'a, 'p, C: Circuit> {
    below: &'a C,
    order: &'p [u32],
    places: [u32; FLOPS],
    ghost ordered: { InSomeOrder (C.Circuit.meaning below.now).counts.flops order.now },
    ghost placed: { PlacesOf order.now places },
}

impl<'a, 'p, C: Circuit> Matched<'a, 'p, C> {
    // The circuit below with its flops in this order, or why not: the length is judged first, then each flop.
    #[tactic(auto, using(crate::proofs::Matches::matches_orders, crate::proofs::Matches::passed_orders))]
    pub fn new(below: &'a C, order: &'p [u32]) -> Result<Matched<'a, 'p, C>, MatchFault>
        ensures answer { meant (λ m. ⟦<Matched<'a, 'p, C> as Circuit>⟧.meaning m) result
            ≡ matching (C.Circuit.meaning below.now) order.now }
        ensures exact { MatchesOrders (C.Circuit.meaning below.now).counts.flops order.now }
        ensures laws { OnOk result (MatchingLaws (C.Circuit.meaning below.now) order.now) }
    {
        if order.len() != below.counts().flops as usize {
            return Err(MatchFault::WrongLength);
        }
        let places = places_in(order);
        judge_flops(order, &places)?;
        Ok(Matched {
            below,
            order,
            places,
        })
    }

    // Which flop below flop j is; past the last flop, j itself.
    fn flop(&self, j: u32) -> u32
        ensures { StandsAt (C.Circuit.meaning self.now.below.now) self.now.order.now j result }
    {
        self.order.get(j as usize).copied().unwrap_or(j)
    }

    // A literal of the circuit below; flops go by their places.
    fn literal(&self, x: u32) -> u32
        ensures { result ≡ renumbered (flops_moved (C.Circuit.meaning self.now.below.now).counts (place self.now.order.now)) x }
    {
        let counts = self.below.counts();
        let NetKind::Flop(flop) = counts.kind(x / 2) else {
            return x;
        };
        let place = self.places[flop as usize];
        2 * (1 + counts.inputs + place) + x % 2
    }
}

impl<'a, 'p, C: Circuit> Circuit for Matched<'a, 'p, C> {
    ghost meaning = { λ x. matched (C.Circuit.meaning x.below.now) x.order.now };

    ghost bounded = { λ x. matched_bounded (C.Circuit.meaning x.below.now) x.order.now (C.Circuit.bounded x.below.now) x.ordered };

    fn counts(&self) -> Counts {
        self.below.counts()
    }

    // Written out as in a padding, where it says why.
    fn gate(&self, i: u32) -> Gate {
        let Gate { left, right } = self.below.gate(i);
        Gate {
            left: self.literal(left),
            right: self.literal(right),
        }
    }

    fn next(&self, j: u32) -> u32 {
        let flop = self.flop(j);
        self.literal(self.below.next(flop))
    }

    fn pin(&self, j: u32) -> Pin {
        self.below.pin(self.flop(j))
    }

    fn out(&self, j: u32) -> u32 {
        self.literal(self.below.out(j))
    }
}
