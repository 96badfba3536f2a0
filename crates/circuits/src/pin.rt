// The bit that a flop starts with.
ghost use Rattle.std.specs.Prelude.{◌≡◌, Some};
ghost use Rattle.circuits.specs.Told.{told_no_pin};
ghost use Rattle.circuits.specs.Pins.{pin_word, PinOfWord};

use std::error::Error;
use std::fmt;

// 0, 1, or either.
#[derive(Clone, Copy, Debug, PartialEq, Eq)]
pub enum Pin {
    Zero,
    One,
    Free,
}

// A word that stands for no pin.
#[derive(Clone, Copy, Debug, PartialEq, Eq)]
pub struct NoPin(pub u32);

// The word that stands for a pin.
impl From<Pin> for u32 {
    ghost from_gives = { λ pin word. word ≡ pin_word pin };

    fn from(pin: Pin) -> u32 {
        match pin {
            Pin::Zero => 0,
            Pin::One => 1,
            Pin::Free => 2,
        }
    }
}

impl Pin {
    // The same as a method, for a crate that lists `netlists` alone: it sees an `impl` for `u32` only of crates that it lists.
    pub fn word(self) -> u32
        ensures { result ≡ pin_word self }
    {
        u32::from(self)
    }
}

impl TryFrom<u32> for Pin {
    type Error = NoPin;

    ghost try_from_gives = { PinOfWord };

    fn try_from(word: u32) -> Result<Pin, NoPin> {
        match word {
            0 => Ok(Pin::Zero),
            1 => Ok(Pin::One),
            2 => Ok(Pin::Free),
            _ => Err(NoPin(word)),
        }
    }
}

impl fmt::Display for NoPin {
    ghost output = { λ none. Some (told_no_pin none) };

    fn fmt<W: fmt::Write>(&self, f: &mut fmt::Formatter<W>) -> fmt::Result {
        write!(f, "{} is no pin", self.0)
    }
}

impl Error for NoPin {}
