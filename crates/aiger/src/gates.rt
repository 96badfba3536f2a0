ghost use Rattle.std.specs.Prelude.{◌+◌, ◌*◌, slice_set};
ghost use Rattle.circuits.specs.Net.{operand_words};
ghost use Rattle.aiger.specs.Reading as spec;

use crate::fault::Refusal;
use crate::lines::{GateLine, Lines};
use crate::section::Section;
use crate::sizes::Sizes;
use circuits::counts::Counts;

// The gates' lines, whose words are the two operands of each.
pub(crate) struct Gates;

impl Section for Gates {
    type Line = GateLine;

    ghost count_of = { λ counts. counts.gates };

    ghost first_of = { λ counts. 2 + counts.inputs + counts.flops + counts.outputs };

    ghost line_read = { spec.gate_line };

    ghost words_of = { λ gates. operand_words (spec.operands_of gates) };

    ghost room_of = { λ count. 2 * count };

    ghost line_written = { λ _ i gate words.
        slice_set (slice_set words (2 * i) gate.left) (2 * i + 1) gate.right };

    fn count(counts: Counts) -> u32 {
        counts.gates
    }

    fn first_line(sizes: Sizes) -> u32 {
        2 + sizes.counts.inputs + sizes.counts.flops + sizes.counts.outputs
    }

    fn read(lines: &mut Lines, sizes: Sizes, i: u32) -> Result<GateLine, Refusal> {
        let own = sizes.gate_literal(i);
        let gate = lines.gate().ok_or(Refusal::MalformedLine)?;
        if gate.own != own {
            return Err(Refusal::WrongLiteral);
        }
        if gate.left >= own || gate.right >= own {
            return Err(Refusal::LargeLiteral);
        }
        Ok(gate)
    }

    // By place and not by chunks: the contract of `as_chunks_mut` says nothing of what the slice ends as.
    fn write(gate: GateLine, words: &mut [u32], _count: usize, i: usize) {
        words[2 * i] = gate.left;
        words[2 * i + 1] = gate.right;
    }
}
