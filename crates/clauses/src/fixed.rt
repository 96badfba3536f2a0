// The start bits that the pins of a circuit fix.
ghost use Rattle.std.specs.Prelude.{◌≡◌, ℕ, ◌-◌, ◌≤◌, ◌++◌, List, length, take, replicate};
ghost use Rattle.std.proofs.Common.{ap, ap₂, sym, ◌∙◌};

use circuits::counts::FLOPS;
use std::marker::Model;

// The literals of the bits, in order. They are worked out, so no caller lends them, and no library here uses the heap.
// An array with a length beside it, since an `ArrayVec` is not `Copy`.
#[derive(Clone, Copy, Debug, PartialEq, Eq)]
pub struct Fixed {
    // zeros from `count` on, so that equal bits are equal in memory
    literals: [u32; FLOPS],
    count: usize,
}

impl Model for Fixed {
    ghost Value = { List ℕ };

    ghost view = { λ f. take f.count f.literals };

    ghost invariant = { λ f. (f.count ≤ 256) × (length (take f.count f.literals) ≡ f.count)
        × (f.literals ≡ take f.count f.literals ++ replicate (256 - f.count) 0) };

    ghost inverse = { λ bits. record { literals = bits ++ replicate (256 - length bits) 0; count = length bits } };

    ghost inverse_ok = { λ f h. ap₂ (λ literals count. record { literals = literals; count = count })
        (ap (λ n. take f.count f.literals ++ replicate (256 - n) 0) h.1 ∙ sym h.2) h.1 };
}

impl Fixed {
    pub(crate) fn literals(&self) -> &[u32]
        ensures is { result.now ≡ self.now }
        ensures few { length result.now ≤ 256 }
    {
        &self.literals[..self.count]
    }
}
