ghost use Rattle.std.specs.Prelude.{◌+◌, slice_set};
ghost use Rattle.aiger.specs.Reading as spec;

use crate::fault::Refusal;
use crate::lines::Lines;
use crate::section::Section;
use crate::sizes::Sizes;
use circuits::counts::Counts;

// The outputs' lines, whose literals are their words.
pub(crate) struct Outputs;

impl Section for Outputs {
    type Line = u32;

    ghost count_of = { λ counts. counts.outputs };

    ghost first_of = { λ counts. 2 + counts.inputs + counts.flops };

    ghost line_read = { spec.output_line };

    ghost words_of = { λ literals. literals };

    ghost room_of = { λ count. count };

    ghost line_written = { λ _ j literal words. slice_set words j literal };

    fn count(counts: Counts) -> u32 {
        counts.outputs
    }

    fn first_line(sizes: Sizes) -> u32 {
        2 + sizes.counts.inputs + sizes.counts.flops
    }

    fn read(lines: &mut Lines, sizes: Sizes, j: u32) -> Result<u32, Refusal> {
        let counts = sizes.counts;
        let literal = lines.single().ok_or(Refusal::MalformedLine)?;
        if u64::from(literal) > counts.largest_literal() {
            return Err(Refusal::LargeLiteral);
        }
        Ok(literal)
    }

    fn write(literal: u32, words: &mut [u32], _count: usize, j: usize) {
        words[j] = literal;
    }
}
