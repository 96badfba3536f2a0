// Which circuit runs in which cycle of a comparison.
ghost use Rattle.std.specs.Prelude.{◌≡◌, ◌+◌, ◌≤◌};
ghost use Rattle.std.specs.List.{slice_get};
ghost use Rattle.clauses.specs.Plans as spec;

use circuits::side::Side;
use comparisons::rule::Rule;

// The two rows of a comparison.
#[derive(Clone, Copy, Debug, PartialEq, Eq)]
pub enum Half {
    Left,
    Right,
}

// A row runs the circuit of its front for so many cycles, and from then on the other.
#[derive(Clone, Copy, Debug, PartialEq, Eq)]
pub struct Row {
    pub front: Side,
    pub turn: u32,
}

#[derive(Clone, Copy, Debug, PartialEq, Eq)]
pub struct Plan {
    pub cycles: u32,
    pub left: Row,
    pub right: Row,
    // whether the start has to fit the pins
    pub pinned: bool,
}

impl Row {
    // The circuit that runs in cycle t.
    pub(crate) fn side(self, t: u32) -> Side
        ensures { result ≡ spec.side_at self t }
    {
        if t < self.turn {
            self.front
        } else {
            self.front.other()
        }
    }
}

impl Plan {
    // A plan whose right row is the original in every cycle.
    fn against_original(cycles: u32, left: Row, pinned: bool) -> Plan
        ensures { result ≡ spec.against_original cycles left pinned }
    {
        let right = Row {
            front: Side::Original,
            turn: cycles,
        };
        Plan {
            cycles,
            left,
            right,
            pinned,
        }
    }

    pub(crate) fn row(self, half: Half) -> Row
        ensures { result ≡ spec.half_row self half }
    {
        match half {
            Half::Left => self.left,
            Half::Right => self.right,
        }
    }

    // Rows of 1 to 8 cycles that turn in time.
    pub(crate) fn in_time(self) -> bool
        ensures { result ≡ spec.in_time self }
    {
        let Plan {
            cycles,
            left,
            right,
            ..
        } = self;
        cycles >= 1 && cycles <= 8 && left.turn <= cycles && right.turn <= cycles
    }
}

// Comparison i, from 0, of a rule at depths n and k.
pub(crate) fn plan_of(rule: Rule, n: u32, k: u32, i: u32) -> Option<Plan>
    requires { n + k ≤ 8 }
    ensures { result ≡ slice_get (spec.plans rule n k) i }
{
    let cycles = n + k;
    let original = Row {
        front: Side::Original,
        turn: n,
    };
    let gated = Row {
        front: Side::Gated,
        turn: n,
    };
    match (rule, i) {
        (Rule::Everywhere, 0) => Some(Plan::against_original(cycles, gated, false)),
        (Rule::AfterOriginal, 0) => Some(Plan::against_original(cycles, original, false)),
        (Rule::FromPins, 0) => Some(Plan::against_original(n, gated, true)),
        (Rule::FromPins, 1) => Some(Plan::against_original(cycles, original, false)),
        (Rule::AfterGated, 0) => Some(Plan {
            cycles,
            left: gated,
            right: Row {
                front: Side::Gated,
                turn: n + 1,
            },
            pinned: false,
        }),
        _ => None,
    }
}
