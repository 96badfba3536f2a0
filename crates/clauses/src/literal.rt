// Literals of clauses, 2v of variable v and 2v + 1 of its negation, and the clauses about a gate and about a difference. Literals are
// numbers here, as in the text, the words and all definitions.
ghost use Rattle.std.specs.Prelude.{◌≡◌, ◌%◌, ◌<◌, ◌≤◌, ◌^◌, length};
ghost use Rattle.circuits.specs.Net.{turned};
ghost use Rattle.comparisons.specs.Clauses.{negated};
ghost use Rattle.comparisons.specs.Places.{gate_clause, difference_clause};
ghost use Rattle.clauses.specs.Parts.{gate_part, difference_part};

use crate::part::{DifferencePart, GatePart};
use arrayvec::ArrayVec;

// The literals of a clause about a gate or a difference: two or three.
pub(crate) type Clause = ArrayVec<u32, 3>;

// A variable that a gate or a difference has, and the two literals that it is about.
#[derive(Clone, Copy, Debug, PartialEq, Eq)]
pub(crate) struct Defined {
    pub(crate) variable: u32,
    pub(crate) left: u32,
    pub(crate) right: u32,
    // so that its literals fit in 32 bits
    ghost few: { variable < 2 ^ 31 },
}

fn negation(literal: u32) -> u32
    ensures { result ≡ negated literal }
{
    literal ^ 1
}

// A literal, inverted where another is.
pub(crate) fn inverted_as(literal: u32, other: u32) -> u32
    ensures { result ≡ turned negated (other % 2) literal }
{
    if other % 2 == 0 {
        literal
    } else {
        negation(literal)
    }
}

// The clause that has these literals.
fn clause_of(literals: &[u32]) -> Clause
    requires { length literals.now ≤ 3 }
    ensures { result.items ≡ literals.now }
{
    Clause::try_from(literals).unwrap()
}

impl Defined {
    // A clause about a gate, of which these are the operands.
    pub(crate) fn gate_clause(self, part: GatePart) -> Clause
        ensures { result.items ≡ gate_clause (gate_part part) self.variable self.left self.right }
    {
        let own = 2 * self.variable;
        match part {
            GatePart::ImpliesLeft => clause_of(&[own + 1, self.left]),
            GatePart::ImpliesRight => clause_of(&[own + 1, self.right]),
            GatePart::Implied => clause_of(&[own, negation(self.left), negation(self.right)]),
        }
    }

    // A clause about the difference of the two.
    pub(crate) fn difference_clause(self, part: DifferencePart) -> Clause
        ensures { result.items ≡ difference_clause (difference_part part) self.variable self.left self.right }
    {
        let own = 2 * self.variable;
        match part {
            DifferencePart::OneTrue => clause_of(&[own + 1, self.left, self.right]),
            DifferencePart::OneFalse => clause_of(&[
                own + 1,
                negation(self.left),
                negation(self.right),
            ]),
        }
    }
}
