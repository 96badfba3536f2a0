// The sizes of a comparison: which variables and which clauses its gates, bits and differences have. Nothing here asks a circuit.
ghost use Rattle.std.specs.Prelude.{◌≡◌, ◌≤◌};
ghost use Rattle.circuits.specs.Net.{BoundedCounts};
ghost use Rattle.clauses.specs.Plans.{InTime};

use crate::part::{DifferencePart, GatePart};
use crate::plan::{Half, Plan, Row};
use circuits::counts::Counts;
use circuits::kind::NetKind;
use circuits::side::Side;

// Which cycle, and which of its gates or outputs.
#[derive(Clone, Copy, Debug, PartialEq, Eq)]
pub struct Spot {
    pub cycle: u32,
    pub at: u32,
}

impl Spot {
    ghost use Rattle.std.specs.Prelude.{◌<◌, ◌/◌, ◌%◌};

    // Place g of those of all cycles, of which each has so many.
    fn numbered(g: u32, each: u32) -> Spot
        requires { 0 < each }
        ensures { result ≡ record { cycle = g / each; at = g % each } }
    {
        Spot {
            cycle: g / each,
            at: g % each,
        }
    }
}

// A cycle of a row, or the end of the row; no row has more than 8 cycles.
#[derive(Clone, Copy, Debug, PartialEq, Eq)]
pub(crate) struct Step {
    pub(crate) half: Half,
    pub(crate) cycle: u32,
    ghost early: { cycle ≤ 8 },
}

impl Step {
    ghost use Rattle.std.specs.Prelude.{◌+◌, MatchOption};

    // The cycle before, if there is one.
    pub(crate) fn before(self) -> Option<Step>
        ensures { MatchOption result (self.cycle ≡ 0) (λ step. (step.half ≡ self.half) × (step.cycle + 1 ≡ self.cycle)) }
    {
        let Step { half, cycle } = self;
        let cycle = cycle.checked_sub(1)?;
        Some(Step { half, cycle })
    }
}

// What the rows of a comparison are compared at.
#[derive(Clone, Copy, Debug, PartialEq, Eq)]
pub(crate) enum Difference {
    // an output in a cycle
    Output(Spot),
    // the final bit of a flop
    Final(u32),
}

// The counts of the two circuits, which have as many inputs, flops and outputs, the plan, and how many start bits are fixed.
#[derive(Clone, Copy, Debug, PartialEq, Eq)]
pub struct Shape {
    pub(crate) original: Counts,
    pub(crate) gated: Counts,
    pub(crate) plan: Plan,
    pub(crate) fixed: u32,
    ghost original_bounded: { BoundedCounts original },
    ghost gated_bounded: { BoundedCounts gated },
    ghost same_inputs: { original.inputs ≡ gated.inputs },
    ghost same_flops: { original.flops ≡ gated.flops },
    ghost same_outputs: { original.outputs ≡ gated.outputs },
    ghost in_time: { InTime plan },
    ghost few_fixed: { fixed ≤ 256 },
}

// What a clause is about, and which of the clauses about it.
#[derive(Clone, Copy, Debug, PartialEq, Eq)]
pub enum Place {
    Constant,
    // a gate in a cycle of a row
    Gate(Half, Spot, GatePart),
    // a difference, by its number
    Difference(u32, DifferencePart),
    // that there is a difference
    Differences,
    // a start bit that is fixed
    Fixed(u32),
}

// The bounds below are the largest sums of what is most: 8 cycles, and in each circuit 256 inputs, flops and outputs, and 8,192 gates.
impl Shape {
    ghost use Rattle.std.specs.Prelude.{◌+◌, ◌*◌, ◌^◌, ◌<◌};
    ghost use Rattle.clauses.specs.Shapes as spec;

    // How many gates the circuit of a side has.
    fn gates_on(self, side: Side) -> u32
        ensures is { result ≡ spec.gates_on self side }
        ensures few { result ≤ 8192 }
    {
        match side {
            Side::Original => self.original.gates,
            Side::Gated => self.gated.gates,
        }
    }

    // How many gates the cycles of the row before this one have.
    fn gates_before(self, step: Step) -> u32
        ensures is { result ≡ spec.gates_before self step.half step.cycle }
        ensures few { result ≤ 65536 }
    {
        let Step { half, cycle } = step;
        let Row { front, turn } = self.plan.row(half);
        let fronts = cycle.min(turn) * self.gates_on(front);
        fronts + cycle.saturating_sub(turn) * self.gates_on(front.other())
    }

    // How many gates a row has.
    fn gates_in_row(self, half: Half) -> u32
        ensures is { result ≡ spec.gates_in_row self half }
        ensures few { result ≤ 65536 }
    {
        self.gates_before(Step {
            half,
            cycle: self.plan.cycles,
        })
    }

    // Where gate g of a row stands.
    #[tactic(auto, using(crate::proofs::Gates::spot_back))]
    fn spot(self, half: Half, g: u32) -> Spot
        requires { g < spec.gates_in_row self half }
        ensures { spec.Spots self half g result }
    {
        let Row { front, turn } = self.plan.row(half);
        let fronts = self.gates_on(front);
        let before = turn * fronts;
        if g < before {
            return Spot::numbered(g, fronts);
        }
        let backs = self.gates_on(front.other());
        let Spot { cycle, at } = Spot::numbered(g - before, backs);
        Spot {
            cycle: turn + cycle,
            at,
        }
    }

    // How many gates the rows before this one have.
    fn gates_ahead(self, half: Half) -> u32
        ensures is { result ≡ spec.gates_ahead self half }
        ensures few { result ≤ 65536 }
    {
        match half {
            Half::Left => 0,
            Half::Right => self.gates_in_row(Half::Left),
        }
    }

    // All gates of both rows.
    fn gates(self) -> u32
        ensures is { result ≡ spec.all_gates self }
        ensures few { result ≤ 131072 }
    {
        self.gates_in_row(Half::Left) + self.gates_in_row(Half::Right)
    }

    // All outputs of a row.
    fn outputs(self) -> u32
        ensures is { result ≡ spec.all_outputs self }
        ensures few { result ≤ 2048 }
    {
        self.plan.cycles * self.original.outputs
    }

    // All differences: the outputs of each cycle, and the final bits.
    fn differences(self) -> u32
        ensures is { result ≡ spec.all_differences self }
        ensures few { result ≤ 2304 }
    {
        self.outputs() + self.original.flops
    }

    // The first variable of a gate.
    fn first_gate(self) -> u32
        ensures is { result ≡ spec.first_gate self }
        ensures few { result ≤ 2306 }
    {
        2 + self.original.flops + self.plan.cycles * self.original.inputs
    }

    // The variable of a gate. No net is past the 8,704th, so neither is a gate. A literal is twice a variable, and has to fit in 32 bits.
    pub(crate) fn gate_variable(self, step: Step, at: u32) -> u32
        requires { at ≤ 8704 }
        ensures is { result ≡ spec.gate_variable self step.half step.cycle at }
        ensures few { result < 2 ^ 31 }
    {
        self.first_gate() + self.gates_ahead(step.half) + self.gates_before(step) + at
    }

    // Difference e, the only one of this number.
    #[tactic(auto, using(crate::proofs::Differences::only_final))]
    pub(crate) fn difference(self, e: u32) -> Difference
        requires { e < spec.all_differences self }
        ensures is { result ≡ spec.difference_at self e }
        ensures of { spec.IsDifferenceOf self result }
        ensures only { spec.OnlyOfNumber self e result }
    {
        if let Some(flop) = e.checked_sub(self.outputs()) {
            return Difference::Final(flop);
        }
        Difference::Output(Spot::numbered(e, self.original.outputs))
    }

    // The first variable of a difference.
    pub(crate) fn first_difference(self) -> u32
        ensures is { result ≡ spec.first_difference self }
        ensures few { result ≤ 133378 }
    {
        self.first_gate() + self.gates()
    }

    // The last variable.
    pub(crate) fn variables(self) -> u32
        ensures { result ≡ spec.all_variables self }
    {
        self.first_difference() + self.differences() - 1
    }

    // How many clauses there are.
    pub(crate) fn clauses(self) -> u32
        ensures { result ≡ spec.all_clauses self }
    {
        2 + 3 * self.gates() + 2 * self.differences() + self.fixed
    }

    // What a literal of a cycle is among those of the clauses, unless it names a flop after cycle 0.
    // The largest is the inverse of net 8,704.
    pub(crate) fn own_literal(self, step: Step, x: u32) -> u32
        requires { x ≤ 17409 }
        ensures { result ≡ spec.own_literal self step.half step.cycle x }
    {
        let Counts { inputs, flops, .. } = self.original;
        let variable = match self.original.kind(x / 2) {
            NetKind::False => 1,
            NetKind::Input(input) => 2 + flops + step.cycle * inputs + input,
            NetKind::Flop(flop) => 2 + flop,
            NetKind::Gate(at) => self.gate_variable(step, at),
        };
        2 * variable + x % 2
    }

    // Clause q, from 0, of those about gates.
    fn gate_place(self, q: u32) -> Place
        requires { q < 3 * spec.all_gates self }
        ensures { spec.Stands self (2 + q) result }
    {
        let g = q / 3;
        let lefts = self.gates_in_row(Half::Left);
        let (half, at) = match g.checked_sub(lefts) {
            Some(at) => (Half::Right, at),
            None => (Half::Left, g),
        };
        Place::Gate(half, self.spot(half, at), GatePart::at(q % 3))
    }

    // Clause q, from 0, of those about differences.
    fn difference_place(self, q: u32) -> Place
        requires { q < 2 * spec.all_differences self }
        ensures { spec.Stands self (2 + 3 * spec.all_gates self + q) result }
    {
        Place::Difference(q / 2, DifferencePart::at(q % 2))
    }

    // What clause c is about, if there is one.
    pub(crate) fn place(self, c: u32) -> Option<Place>
        ensures { spec.IsPlaceOf self c result }
    {
        let gates = 2 + 3 * self.gates();
        let differences = gates + 2 * self.differences();
        if c == 0 || c > differences + self.fixed {
            return None;
        }
        Some(if c == 1 {
            Place::Constant
        } else if c < gates {
            self.gate_place(c - 2)
        } else if c < differences {
            self.difference_place(c - gates)
        } else if c == differences {
            Place::Differences
        } else {
            Place::Fixed(c - differences - 1)
        })
    }
}
