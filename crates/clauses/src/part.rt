// Which of the clauses about a gate, and about a difference.
ghost use Rattle.std.specs.Prelude.{◌≡◌, ◌<◌};
ghost use Rattle.clauses.specs.Parts.{gate_part, difference_part};

#[derive(Clone, Copy, Debug, PartialEq, Eq)]
pub enum GatePart {
    // the gate implies its left operand
    ImpliesLeft,
    // the gate implies its right operand
    ImpliesRight,
    // both operands imply the gate
    Implied,
}

#[derive(Clone, Copy, Debug, PartialEq, Eq)]
pub enum DifferencePart {
    // of two literals that differ, one is true
    OneTrue,
    // and one is false
    OneFalse,
}

impl GatePart {
    // The clause at this place among those of its gate.
    pub(crate) fn at(place: u32) -> GatePart
        requires { place < 3 }
        ensures { gate_part result ≡ place }
    {
        match place {
            0 => GatePart::ImpliesLeft,
            1 => GatePart::ImpliesRight,
            _ => GatePart::Implied,
        }
    }
}

// Alike in two impls, over three cases and two: a trait of this one method would have these very bodies, and `TryFrom` would have an
// error that nobody meets.
impl DifferencePart {
    // The clause at this place among those of its difference.
    pub(crate) fn at(place: u32) -> DifferencePart
        requires { place < 2 }
        ensures { difference_part result ≡ place }
    {
        match place {
            0 => DifferencePart::OneTrue,
            _ => DifferencePart::OneFalse,
        }
    }
}
