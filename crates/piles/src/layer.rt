// A layer as a line of the list writes it.
use anyhow::{Context, anyhow};
use netlists::Dummy;
use std::alloc::Global;

#[derive(Debug, Drop, PartialEq, Eq)]
pub enum Layer {
    Pad(Vec<Dummy>),
    Match(Vec<u32>),
}

fn parse_dummy(text: &str) -> anyhow::Result<Dummy> {
    let (next, pin) = text.split_once(':').context("a dummy without a colon")?;
    Ok(Dummy {
        next: next.parse::<u32>()?,
        pin: pin.parse::<u32>()?,
    })
}

fn parse_flop(text: &str) -> anyhow::Result<u32> {
    Ok(text.parse::<u32>()?)
}

// The words of a text, each parsed. A loop that pushes, since `try_collect` takes a quarter more time or more.
fn parse_words<T: Drop, F: Fn(&str) -> anyhow::Result<T>>(
    heap: Global,
    text: &str,
    parse: F,
) -> anyhow::Result<Vec<T>>
    requires { F.IsAlwaysCallable parse }
{
    let mut parsed = Vec::new(heap);
    for word in text.split_whitespace() {
        parsed.push(parse(word)?)?;
    }
    Ok(parsed)
}

pub(crate) fn parse_layer(heap: Global, text: &str) -> anyhow::Result<Layer> {
    let (kind, rest) = text.split_once(' ').unwrap_or((text, ""));
    match kind {
        "pad" => Ok(Layer::Pad(parse_words(heap, rest, parse_dummy)?)),
        "match" => Ok(Layer::Match(parse_words(heap, rest, parse_flop)?)),
        _ => Err(anyhow!("a layer that is neither pad nor match")),
    }
}
