// Why a layer cannot be put over a circuit.
ghost use Rattle.std.specs.Prelude.{Some};
ghost use Rattle.layers.specs.Faults.{pad_number, told_pad, match_number, told_match};

use circuits::numbered::Numbered;
use std::error::Error;
use std::fmt;

#[derive(Clone, Copy, Debug, PartialEq, Eq)]
pub enum PadFault {
    // more than 16 dummies
    ManyDummies,
    // more than 256 flops with the dummies
    ManyFlops,
    // the next literal of this dummy, counted from 0, is none of the circuit below
    LargeLiteral(u32),
    // the pin of this dummy is above 2
    LargePin(u32),
}

impl Numbered for PadFault {
    ghost number_of = { pad_number };

    fn number(&self) -> u32 {
        8
    }
}

impl fmt::Display for PadFault {
    ghost output = { λ fault. Some (told_pad fault) };

    fn fmt<W: fmt::Write>(&self, f: &mut fmt::Formatter<W>) -> fmt::Result {
        match self {
            PadFault::ManyDummies => f.write_str("dummies"),
            PadFault::ManyFlops => f.write_str("flops"),
            PadFault::LargeLiteral(k) => write!(f, "literal of dummy {k}"),
            PadFault::LargePin(k) => write!(f, "pin of dummy {k}"),
        }
    }
}

impl Error for PadFault {}

#[derive(Clone, Copy, Debug, PartialEq, Eq)]
pub enum MatchFault {
    // the order has not one entry for each flop
    WrongLength,
    // the order does not name this flop, the first such
    Unmatched(u32),
}

impl Numbered for MatchFault {
    ghost number_of = { match_number };

    fn number(&self) -> u32 {
        9
    }
}

impl fmt::Display for MatchFault {
    ghost output = { λ fault. Some (told_match fault) };

    fn fmt<W: fmt::Write>(&self, f: &mut fmt::Formatter<W>) -> fmt::Result {
        match self {
            MatchFault::WrongLength => f.write_str("length"),
            MatchFault::Unmatched(flop) => write!(f, "flop {flop}"),
        }
    }
}

impl Error for MatchFault {}
