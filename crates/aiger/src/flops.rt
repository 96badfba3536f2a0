ghost use Rattle.std.specs.Prelude.{◌≡◌, ◌+◌, ◌*◌, ◌++◌, slice_set};
ghost use Rattle.circuits.specs.Pins.{pin_word};
ghost use Rattle.aiger.specs.Reading as spec;

use crate::fault::Refusal;
use crate::lines::{FlopLine, Lines};
use crate::section::Section;
use crate::sizes::Sizes;
use circuits::counts::Counts;
use circuits::pin::Pin;

// The flops' lines, whose next literals are the first half of their words, and whose pins are the second.
pub(crate) struct Flops;

// Judged when a line is read, and decoded when it is written: a line is read as its three numbers, as the definitions have it.
fn third_fits(own: u32, third: Option<u32>) -> bool
    ensures { result ≡ spec.is_third own third }
{
    match third {
        None => true,
        Some(n) => n <= 1 || n == own,
    }
}

fn pin(third: Option<u32>) -> Pin
    ensures { pin_word result ≡ spec.pin third }
{
    match third {
        None | Some(0) => Pin::Zero,
        Some(1) => Pin::One,
        Some(_) => Pin::Free,
    }
}

impl Section for Flops {
    type Line = FlopLine;

    ghost count_of = { λ counts. counts.flops };

    ghost first_of = { λ counts. 2 + counts.inputs };

    ghost line_read = { spec.flop_line };

    ghost words_of = { λ flops. spec.nexts_of flops ++ spec.pins_of flops };

    ghost room_of = { λ count. 2 * count };

    ghost line_written = { λ count j flop words.
        slice_set (slice_set words j flop.next) (count + j) (spec.pin flop.third) };

    fn count(counts: Counts) -> u32 {
        counts.flops
    }

    fn first_line(sizes: Sizes) -> u32 {
        2 + sizes.counts.inputs
    }

    fn read(lines: &mut Lines, sizes: Sizes, j: u32) -> Result<FlopLine, Refusal> {
        let counts = sizes.counts;
        let own = sizes.flop_literal(j);
        let flop = lines.flop().ok_or(Refusal::MalformedLine)?;
        if flop.own != own {
            return Err(Refusal::WrongLiteral);
        }
        if u64::from(flop.next) > counts.largest_literal() {
            return Err(Refusal::LargeLiteral);
        }
        if !third_fits(own, flop.third) {
            return Err(Refusal::WrongPin);
        }
        Ok(flop)
    }

    // By place and not into rows cut first: a circuit is laid out as its next literals and then its pins, and one loop serves all sections.
    fn write(flop: FlopLine, words: &mut [u32], count: usize, j: usize) {
        words[j] = flop.next;
        words[count + j] = u32::from(pin(flop.third));
    }
}
