ghost use Rattle.std.specs.Prelude.{◌≡◌, Some};
ghost use Rattle.aiger.specs.Refusals as spec;
ghost use Rattle.aiger.specs.Told.{told_fault};

use circuits::numbered::Numbered;
use std::error::Error;
use std::fmt;

// Why a netlist's text is refused.
#[derive(Clone, Copy, Debug, PartialEq, Eq)]
pub enum Refusal {
    // line 1 is malformed
    MalformedHeader,
    // a count is outside its bounds, or the counts do not add up to the last net
    WrongCounts,
    // a later line is missing or malformed
    MalformedLine,
    // the own literal of an input, a flop or a gate is not the one due
    WrongLiteral,
    // an operand, a next literal or an output literal is too large
    LargeLiteral,
    // a flop's third number is neither 0, 1 nor its own literal
    WrongPin,
    // fewer words are lent than the circuit takes
    FewWords,
}

// A refusal, and the line that brought it on; lines count from 1.
#[derive(Clone, Copy, Debug, PartialEq, Eq)]
pub struct ReadFault {
    pub refusal: Refusal,
    pub line: u32,
}

impl Numbered for Refusal {
    ghost number_of = { spec.number };

    fn number(&self) -> u32 {
        match self {
            Refusal::MalformedHeader => 1,
            Refusal::WrongCounts => 2,
            Refusal::MalformedLine => 3,
            Refusal::WrongLiteral => 4,
            Refusal::LargeLiteral => 5,
            Refusal::WrongPin => 6,
            Refusal::FewWords => 7,
        }
    }
}

impl Refusal {
    // The fault of a line that is refused so.
    pub(crate) fn at(self, line: u32) -> ReadFault
        ensures { result ≡ record { refusal = self; line = line } }
    {
        ReadFault {
            refusal: self,
            line,
        }
    }
}

impl fmt::Display for ReadFault {
    ghost output = { λ fault. Some (told_fault fault) };

    fn fmt<W: fmt::Write>(&self, f: &mut fmt::Formatter<W>) -> fmt::Result {
        let number = self.refusal.number();
        let line = self.line;
        write!(f, "refused {number} line {line}")
    }
}

impl Error for ReadFault {}
