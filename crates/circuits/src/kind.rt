// What a net is.
ghost use Rattle.circuits.specs.Kinds.{IsKind};

use crate::counts::Counts;

// The net that is false, or which input, flop or gate, each counted from 0.
#[derive(Clone, Copy, Debug, PartialEq, Eq)]
pub enum NetKind {
    False,
    Input(u32),
    Flop(u32),
    Gate(u32),
}

impl Counts {
    // What this net is in a circuit of these counts; past the last net, a gate past the last. Gates are asked for first, and in 64 bits, so
    // that who asks for no more than that makes one comparison.
    pub fn kind(self, net: u32) -> NetKind
        ensures { IsKind self net result }
    {
        let first_flop = 1 + u64::from(self.inputs);
        let first_gate = first_flop + u64::from(self.flops);
        let net = u64::from(net);
        if let Some(gate) = net.checked_sub(first_gate) {
            return NetKind::Gate(gate as u32);
        }
        if let Some(flop) = net.checked_sub(first_flop) {
            return NetKind::Flop(flop as u32);
        }
        match net.checked_sub(1) {
            Some(input) => NetKind::Input(input as u32),
            None => NetKind::False,
        }
    }
}
