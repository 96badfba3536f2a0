// The lines of a netlist's text, taken from its front one after the other.
ghost use Rattle.std.specs.Prelude.{◌≡◌, None};
ghost use Rattle.aiger.specs.Lines as spec;
ghost use Rattle.aiger.specs.Beside.{beside};

use circuits::counts::Counts;
use std::marker::Model;

// Line 1: the last net, and the counts.
#[derive(Clone, Copy, Debug, PartialEq, Eq)]
pub struct Header {
    pub last: u32,
    pub counts: Counts,
}

// A flop's line: its own literal, its next literal, and a third number or none.
#[derive(Clone, Copy, Debug, PartialEq, Eq)]
pub struct FlopLine {
    pub own: u32,
    pub next: u32,
    pub third: Option<u32>,
}

// A gate's line: its own literal and its two operands.
#[derive(Clone, Copy, Debug, PartialEq, Eq)]
pub struct GateLine {
    pub own: u32,
    pub left: u32,
    pub right: u32,
}

// What is left to read of a text; contracts see its bytes.
#[derive(Drop)]
pub struct Lines<'a> {
    rest: &'a [u8],
}

impl<'a> Model for Lines<'a> {
    ghost use Rattle.std.specs.Prelude.{ℕ, List};

    ghost Value = { List ℕ };

    ghost view = { λ lines. lines.rest.now };
}

impl<'a> Lines<'a> {
    pub(crate) fn new(text: &'a [u8]) -> Lines<'a>
        ensures { result ≡ text.now }
    {
        Lines { rest: text }
    }

    // Takes the byte `b`.
    #[tactic(auto, using(crate::proofs::Fronts::byte_took))]
    fn byte(&mut self, b: u8) -> Option<()>
        ensures took { beside self.new result ≡ spec.byte b self.old }
        ensures left { result ≡ None → self.new ≡ self.old }
    {
        match self.rest {
            [first, rest @ ..] if *first == b => {
                self.rest = rest;
                Some(())
            }
            _ => None,
        }
    }

    // Takes a digit.
    #[tactic(auto, using(crate::proofs::Fronts::digit_took))]
    fn digit(&mut self) -> Option<u32>
        ensures took { beside self.new result ≡ spec.digit self.old }
        ensures left { result ≡ None → self.new ≡ self.old }
    {
        match self.rest {
            [digit @ b'0'..=b'9', rest @ ..] => {
                self.rest = rest;
                Some(u32::from(*digit - b'0'))
            }
            _ => None,
        }
    }

    // Takes a number: 0, or digits of which the first is not 0, below 2^32.
    fn numeral(&mut self) -> Option<u32>
        ensures { beside self.new result ≡ spec.numeral self.old }
    {
        let mut n = self.digit()?;
        if n == 0 {
            return Some(n);
        }
        while let Some(d) = self.digit() {
            n = n.checked_mul(10)?.checked_add(d)?;
        }
        Some(n)
    }

    // Takes a space and a number.
    fn field(&mut self) -> Option<u32>
        ensures { beside self.new result ≡ spec.field self.old }
    {
        self.byte(b' ')?;
        self.numeral()
    }

    // Takes a line of one number.
    pub(crate) fn single(&mut self) -> Option<u32>
        ensures { beside self.new result ≡ spec.single self.old }
    {
        let n = self.numeral()?;
        self.byte(b'\n')?;
        Some(n)
    }

    // Takes a gate's line.
    pub(crate) fn gate(&mut self) -> Option<GateLine>
        ensures { beside self.new result ≡ spec.gate self.old }
    {
        let own = self.numeral()?;
        let left = self.field()?;
        let right = self.field()?;
        self.byte(b'\n')?;
        Some(GateLine { own, left, right })
    }

    // Takes the end of a flop's line, and the number before it, if there is one.
    fn third(&mut self) -> Option<Option<u32>>
        ensures { beside self.new result ≡ spec.third self.old }
    {
        if self.byte(b'\n').is_some() {
            return Some(None);
        }
        let third = self.field()?;
        self.byte(b'\n')?;
        Some(Some(third))
    }

    // Takes a flop's line.
    pub(crate) fn flop(&mut self) -> Option<FlopLine>
        ensures { beside self.new result ≡ spec.flop self.old }
    {
        let own = self.numeral()?;
        let next = self.field()?;
        let third = self.third()?;
        Some(FlopLine { own, next, third })
    }

    // Takes line 1, `aag M I L O A`.
    pub(crate) fn header(&mut self) -> Option<Header>
        ensures { beside self.new result ≡ spec.header self.old }
    {
        self.byte(b'a')?;
        self.byte(b'a')?;
        self.byte(b'g')?;
        let last = self.field()?;
        let inputs = self.field()?;
        let flops = self.field()?;
        let outputs = self.field()?;
        let gates = self.field()?;
        self.byte(b'\n')?;
        Some(Header {
            last,
            counts: Counts {
                inputs,
                flops,
                gates,
                outputs,
            },
        })
    }
}
