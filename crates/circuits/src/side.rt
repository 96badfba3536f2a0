// Which of the two circuits that are compared.
ghost use Rattle.std.specs.Prelude.{◌≡◌, Some};
ghost use Rattle.circuits.specs.Sides.{other_side, letter};

use std::fmt;

#[derive(Clone, Copy, Debug, PartialEq, Eq)]
pub enum Side {
    Original,
    Gated,
}

impl Side {
    pub fn other(self) -> Side
        ensures { result ≡ other_side self }
    {
        match self {
            Side::Original => Side::Gated,
            Side::Gated => Side::Original,
        }
    }
}

impl fmt::Display for Side {
    ghost output = { λ side. Some (letter side) };

    fn fmt<W: fmt::Write>(&self, f: &mut fmt::Formatter<W>) -> fmt::Result {
        match self {
            Side::Original => write!(f, "a"),
            Side::Gated => write!(f, "b"),
        }
    }
}
