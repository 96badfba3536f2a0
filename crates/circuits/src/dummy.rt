// A flop that a padding adds to a circuit: its next literal, numbered as in the circuit below, and the word of its pin. Both are
// words that a lender wrote, which may be wrong.
#[derive(Clone, Copy, Debug, PartialEq, Eq)]
pub struct Dummy {
    pub next: u32,
    pub pin: u32,
}
