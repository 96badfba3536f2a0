// What is printed of a circuit or of a refusal.
use netlists::{Circuit, Numbered};
use std::fmt;

// At most so many answers of a kind are printed.
const PRINTED: u32 = 8;

// Two numbers that are shown together.
#[derive(Clone, Copy, Debug, PartialEq, Eq)]
struct Pair(u32, u32);

impl fmt::Display for Pair {
    fn fmt<W: fmt::Write>(&self, f: &mut fmt::Formatter<W>) -> fmt::Result {
        write!(f, "({} {})", self.0, self.1)
    }
}

// The operands of gate i.
fn operands<C: Circuit>(circuit: &C, i: u32) -> Pair {
    let gate = circuit.gate(i);
    Pair(gate.left, gate.right)
}

// The next literal of flop j, and the word of its pin.
fn next_and_pin<C: Circuit>(circuit: &C, j: u32) -> Pair {
    Pair(circuit.next(j), circuit.pin(j).word())
}

// Tells the first of `count` answers of a kind.
fn tell_first<T: fmt::Display + Drop, F: Fn(u32) -> T>(
    rt: &HostRuntime,
    kind: &str,
    count: u32,
    answer: F,
) -> anyhow::Result<()>
    requires { F.IsAlwaysCallable answer }
{
    print!(rt; ", {kind}")?;
    for told in (0..count.min(PRINTED)).map(answer) {
        print!(rt; " {told}")?;
    }
    Ok(())
}

// The counts, the first answers of each kind, and the first past each end.
pub(crate) fn tell<C: Circuit>(rt: &HostRuntime, circuit: &C) -> anyhow::Result<()> {
    let counts = circuit.counts();
    print!(rt; "{counts}")?;
    tell_first(rt, "gates", counts.gates, |i| operands(circuit, i))?;
    tell_first(rt, "flops", counts.flops, |j| next_and_pin(circuit, j))?;
    tell_first(rt, "outs", counts.outputs, |j| circuit.out(j))?;
    let gate = operands(circuit, counts.gates);
    let flop = next_and_pin(circuit, counts.flops);
    let out = circuit.out(counts.outputs);
    println!(rt; ", past {gate} {flop} {out}")?;
    Ok(())
}

pub(crate) fn tell_refusal<F: Numbered + fmt::Display>(
    rt: &HostRuntime,
    fault: &F,
) -> anyhow::Result<()> {
    let number = fault.number();
    println!(rt; "refused {number} {fault}")?;
    Ok(())
}
