ghost use Rattle.std.specs.Prelude.{[]};
ghost use Rattle.aiger.specs.Reading as spec;

use crate::fault::Refusal;
use crate::lines::Lines;
use crate::section::Section;
use crate::sizes::Sizes;
use circuits::counts::Counts;

// The inputs' lines, of which no word is kept.
pub(crate) struct Inputs;

impl Section for Inputs {
    type Line = u32;

    ghost count_of = { λ counts. counts.inputs };

    ghost first_of = { λ _. 2 };

    ghost line_read = { λ _. spec.input_line };

    ghost words_of = { λ _. [] };

    ghost room_of = { λ _. 0 };

    ghost line_written = { λ _ _ _ words. words };

    fn count(counts: Counts) -> u32 {
        counts.inputs
    }

    fn first_line(_sizes: Sizes) -> u32 {
        2
    }

    fn read(lines: &mut Lines, sizes: Sizes, i: u32) -> Result<u32, Refusal> {
        let literal = lines.single().ok_or(Refusal::MalformedLine)?;
        if literal != sizes.input_literal(i) {
            return Err(Refusal::WrongLiteral);
        }
        Ok(literal)
    }

    fn write(_literal: u32, _words: &mut [u32], _count: usize, _i: usize) {}
}
