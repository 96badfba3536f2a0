// A comparison of two circuits of any kinds: its clauses about gates and about differences.
ghost use Rattle.std.specs.Prelude.{◌≡◌, ◌<◌, ◌≤◌, ◌↔◌, ◌&&◌, IsTrue, IsSome, IfSome};
ghost use Rattle.comparisons.specs.Clauses.{named as naming};
ghost use Rattle.comparisons.specs.Opening as opening;
ghost use Rattle.clauses.specs.Plans.{in_time};
ghost use Rattle.clauses.specs.Shapes.{AreSizes, IsDifferenceOf, all_differences};
ghost use Rattle.clauses.specs.Asked.{runs, OfCycle, names_in, compared_of, gate_clause_of, difference_clause_of};

use crate::fixed::Fixed;
use crate::literal::{Clause, Defined, inverted_as};
use crate::part::{DifferencePart, GatePart};
use crate::plan::{Half, Plan};
use crate::running::Running;
use crate::shape::{Difference, Shape, Spot, Step};
use circuits::circuit::{Circuit, Gate};
use circuits::counts::Counts;
use circuits::kind::NetKind;
use circuits::side::Side;
use std::marker::Model;

#[derive(Drop)]
pub struct Comparison<'a, O: Circuit, G: Circuit> {
    original: &'a O,
    gated: &'a G,
    shape: Shape,
    fixed: Fixed,
}

// Contracts see what the circuits are. The sizes are theirs, and those of the start bits that are fixed.
impl<'a, O: Circuit, G: Circuit> Model for Comparison<'a, O, G> {
    ghost use Rattle.clauses.specs.Shapes.{AreSizes};
    ghost use Rattle.clauses.specs.Asked.{Compared};

    ghost Value = { Compared };

    ghost view = { λ c. record {
      original = O.Circuit.meaning c.original.now;
      gated = G.Circuit.meaning c.gated.now;
      shape = c.shape;
      fixed = c.fixed;
    } };

    ghost invariant = { λ c. let a = O.Circuit.meaning c.original.now in let b = G.Circuit.meaning c.gated.now in
        AreSizes a.counts b.counts c.fixed c.shape };
}

pub(crate) fn same_sizes(a: Counts, b: Counts) -> bool
    ensures { result ≡ opening.same_sizes a b }
{
    (a.inputs, a.flops, a.outputs) == (b.inputs, b.flops, b.outputs)
}

impl<'a, O: Circuit, G: Circuit> Comparison<'a, O, G> {
    // The comparison by a plan that fixes these start bits, where the circuits are of the same sizes and the plan is in time.
    pub(crate) fn new(original: &'a O, gated: &'a G, plan: Plan, fixed: Fixed) -> Option<Self>
        ensures some { let a = O.Circuit.meaning original.now in let b = G.Circuit.meaning gated.now in
            IsSome result ↔ IsTrue (opening.same_sizes a.counts b.counts && in_time plan) }
        ensures of { let a = O.Circuit.meaning original.now in let b = G.Circuit.meaning gated.now in
            IfSome result (λ c. (c.original ≡ a) × (c.gated ≡ b) × (c.shape.plan ≡ plan) × (c.fixed ≡ fixed)
            × AreSizes a.counts b.counts fixed c.shape) }
    {
        let a = original.counts();
        let b = gated.counts();
        if !same_sizes(a, b) || !plan.in_time() {
            return None;
        }
        let shape = Shape {
            original: a,
            gated: b,
            plan,
            fixed: fixed.literals().len() as u32,
        };
        Some(Comparison {
            original,
            gated,
            shape,
            fixed,
        })
    }

    // The circuit that runs in a cycle.
    fn running(&self, step: Step) -> Running<'a, O, G>
        ensures { ⟦<Running<'a, O, G> as Circuit>⟧.meaning result ≡ runs self.now step.half step.cycle }
    {
        match self.shape.plan.row(step.half).side(step.cycle) {
            Side::Original => Running::Original(self.original),
            Side::Gated => Running::Gated(self.gated),
        }
    }

    // What literal x of a cycle is among the literals of the clauses: a flop is what its next literal is in the cycle before.
    #[tactic(auto, using(circuits::proofs::Lookups::next_low, crate::proofs::Naming::own_unless_flop, crate::proofs::Naming::own_at_start, crate::proofs::Naming::flop_by_next))]
    fn named(&self, step: Step, x: u32) -> u32
        requires early { step.cycle < self.now.shape.plan.cycles }
        requires of_cycle { OfCycle self.now step.half step.cycle x }
        ensures { result ≡ naming (names_in self.now step.half step.cycle) x }
    {
        match self.shape.original.kind(x / 2) {
            NetKind::Flop(flop) => match step.before() {
                Some(before) => {
                    let next = self.running(before).next(flop);
                    inverted_as(self.named(before, next), x)
                }
                None => self.shape.own_literal(step, x),
            },
            _ => self.shape.own_literal(step, x),
        }
    }

    // What a row has where it is compared.
    fn compared(&self, half: Half, difference: Difference) -> u32
        requires { IsDifferenceOf self.now.shape difference }
        ensures { result ≡ compared_of self.now half difference }
    {
        match difference {
            Difference::Output(Spot { cycle, at }) => {
                let step = Step { half, cycle };
                self.named(step, self.running(step).out(at))
            }
            Difference::Final(flop) => {
                let cycle = self.shape.plan.cycles - 1;
                let last = Step { half, cycle };
                self.named(last, self.running(last).next(flop))
            }
        }
    }

    // A clause about a gate. Half and spot come apart, as in `Place`: one value of both with the fact of a `Step` would make `Place`, which
    // is public, ask for that fact.
    #[tactic(auto, using(circuits::proofs::Lookups::gate_low))]
    fn gate_clause(&self, half: Half, spot: Spot, part: GatePart) -> Clause
        requires early { spot.cycle < self.now.shape.plan.cycles }
        requires low { spot.at ≤ 8192 }
        ensures { result.items ≡ gate_clause_of self.now half spot part }
    {
        let Spot { cycle, at } = spot;
        let step = Step { half, cycle };
        let Gate { left, right } = self.running(step).gate(at);
        let gate = Defined {
            variable: self.shape.gate_variable(step, at),
            left: self.named(step, left),
            right: self.named(step, right),
        };
        gate.gate_clause(part)
    }

    // A clause about difference e.
    fn difference_clause(&self, e: u32, part: DifferencePart) -> Clause
        requires { e < all_differences self.now.shape }
        ensures { result.items ≡ difference_clause_of self.now e part }
    {
        let difference = self.shape.difference(e);
        let compared = Defined {
            variable: self.shape.first_difference() + e,
            left: self.compared(Half::Left, difference),
            right: self.compared(Half::Right, difference),
        };
        compared.difference_clause(part)
    }
}
