// The rules by which two circuits are shown to be equal for ever.
ghost use Rattle.std.specs.Prelude.{◌≡◌, ok_or};
ghost use Rattle.comparisons.specs.Opening.{rule_of};
ghost use Rattle.comparisons.specs.declared.fault.OpenFault.TheVariants.{OutsideTable};

use crate::fault::OpenFault;

// Each is named by the start states of which its verdict speaks.
#[derive(Clone, Copy, Debug, PartialEq, Eq)]
pub enum Rule {
    // all states
    Everywhere,
    // those that the original reaches in n cycles
    AfterOriginal,
    // those that fit the pins
    FromPins,
    // those that the gated circuit reaches in n cycles
    AfterGated,
}

// The rule that users know by a number.
impl TryFrom<u32> for Rule {
    type Error = OpenFault;

    ghost try_from_gives = { λ number rule. rule ≡ ok_or (rule_of number) OutsideTable };

    fn try_from(number: u32) -> Result<Rule, OpenFault> {
        match number {
            1 => Ok(Rule::Everywhere),
            2 => Ok(Rule::AfterOriginal),
            3 => Ok(Rule::FromPins),
            4 => Ok(Rule::AfterGated),
            _ => Err(OpenFault::OutsideTable),
        }
    }
}
