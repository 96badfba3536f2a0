// Why two circuits cannot be compared by a rule.
ghost use Rattle.std.specs.Prelude.{◌≡◌, Some};
ghost use Rattle.comparisons.specs.Faults as spec;

use circuits::numbered::Numbered;
use std::error::Error;
use std::fmt;

#[derive(Clone, Copy, Debug, PartialEq, Eq)]
pub enum OpenFault {
    // the circuits differ in the number of inputs, flops or outputs
    SizesDiffer,
    // there is no such rule, or it has not these depths
    OutsideTable,
    // the rule starts from the pins, and these differ
    PinsDiffer,
    // a comparison has more than 262,143 variables
    ManyVariables,
}

// The number by which users know the refusal.
impl Numbered for OpenFault {
    ghost number_of = { spec.open_number };

    fn number(&self) -> u32 {
        match self {
            OpenFault::SizesDiffer => 10,
            OpenFault::OutsideTable => 11,
            OpenFault::PinsDiffer => 12,
            OpenFault::ManyVariables => 13,
        }
    }
}

impl fmt::Display for OpenFault {
    ghost output = { λ fault. Some (spec.told_fault fault) };

    fn fmt<W: fmt::Write>(&self, f: &mut fmt::Formatter<W>) -> fmt::Result {
        f.write_str(match self {
            OpenFault::SizesDiffer => "sizes",
            OpenFault::OutsideTable => "rule or depths",
            OpenFault::PinsDiffer => "pins",
            OpenFault::ManyVariables => "variables",
        })
    }
}

impl Error for OpenFault {}
