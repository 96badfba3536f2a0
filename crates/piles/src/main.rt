// Piles layers on sample netlists and prints what the circuit on top answers. A line of `list` has a netlist's file and up to two
// layers, from the lowest: `mixed.aag;pad 8:1 7:2;match 2 0 3 1`, a dummy as its next literal and its pin.
#![tactic(auto)]

mod layer;
mod pile;
mod told;

use anyhow::Context;
use layer::parse_layer;
use netlists::{MOST_WORDS, Plain, read};
use pile::{Tell, Under, Visit};
use std::fs;

fn run_sample(rt: &HostRuntime, line: &str) -> anyhow::Result<()> {
    let mut parts = line.split(';');
    let file = parts.next().context("a line without a file")?;
    let text = fs::read(rt, file)?;
    let mut words = vec![in rt.alloc(); 0; MOST_WORDS]?;
    let counts = read(text.as_slice(), &mut words)
        .ok()
        .context("a netlist that is refused")?;
    let plain = Plain::new(counts, words.as_slice());
    print!(rt; "{line}: ")?;
    let Some(first) = parts.next() else {
        return Tell.visit(rt, &plain);
    };
    let lower = parse_layer(rt.alloc(), first)?;
    let Some(second) = parts.next() else {
        return Under(&lower, Tell).visit(rt, &plain);
    };
    let upper = parse_layer(rt.alloc(), second)?;
    Under(&lower, Under(&upper, Tell)).visit(rt, &plain)
}

// Twice, here and in `samples`: shared, this loop would be a crate that both programs stand on.
fn run(rt: &HostRuntime) -> anyhow::Result<()> {
    let list = fs::read_to_string(rt, "list")?;
    for line in list.lines() {
        run_sample(rt, line)?;
    }
    Ok(())
}

fn main(rt: HostRuntime) -> anyhow::Result<()> {
    run(&rt)
}
