// Reads sample netlists and prints what each reading answered. A line of `list` has how many words are lent, and the
// files whose bytes, one after the other, are the text.
#![tactic(auto)]

use anyhow::Context;
use netlists::read;
use std::fs;

// What each word holds before a reading, so that a word that was left can be told from one that was written.
const BEFORE: u32 = 9;

// At most so many words are printed.
const PRINTED_WORDS: usize = 8;

fn text_of(rt: &HostRuntime, files: &str) -> anyhow::Result<Vec<u8>> {
    let mut text = Vec::new(rt.alloc());
    for file in files.split(' ') {
        let bytes = fs::read(rt, file)?;
        text.extend_from_slice(bytes.as_slice())?;
    }
    Ok(text)
}

fn run_sample(rt: &HostRuntime, lent: usize, files: &str) -> anyhow::Result<()> {
    let text = text_of(rt, files)?;
    let mut words = vec![in rt.alloc(); BEFORE; lent]?;
    match read(text.as_slice(), &mut words) {
        Ok(counts) => print!(rt; "{files}: accepted {counts}")?,
        Err(fault) => print!(rt; "{files}: {fault}")?,
    }
    if lent <= PRINTED_WORDS {
        print!(rt; ", words {words:?}")?;
    }
    println!(rt)?;
    Ok(())
}

// Twice, here and in `piles`: shared, this loop would be a crate that both programs stand on.
fn run(rt: &HostRuntime) -> anyhow::Result<()> {
    let list = fs::read_to_string(rt, "list")?;
    for line in list.lines() {
        let (lent, files) = line
            .split_once(' ')
            .context("a line of the list without a space")?;
        run_sample(rt, lent.parse::<usize>()?, files)?;
    }
    Ok(())
}

fn main(rt: HostRuntime) -> anyhow::Result<()> {
    run(&rt)
}
