// The lines after the first: a section for each kind of line, one section after the other.
ghost use Rattle.std.specs.Prelude.{◌≡◌, ℕ, ◌+◌, ◌<◌, ◌≤◌, List, length, Result};
ghost use Rattle.std.specs.List.{range_with_len};
ghost use Rattle.circuits.specs.declared.counts.Counts.{Counts};
ghost use Rattle.aiger.specs.declared.fault.ReadFault.{ReadFault};
ghost use Rattle.aiger.specs.Beside.{beside_result, holding, as_words, told_at};
ghost use Rattle.aiger.specs.Laws.{last_line};
ghost use Rattle.aiger.specs.Reading.{each};
ghost use Rattle.aiger.specs.Sections.{WritesWords};

use crate::fault::{ReadFault, Refusal};
use crate::lines::Lines;
use crate::sizes::Sizes;
use circuits::counts::Counts;

// A kind of line.
pub(crate) trait Section {
    // What is read of a line.
    type Line;

    // How many lines there are, the line of the text that the first is, and what line i of them is read as.
    ghost count_of: { Counts → ℕ };

    ghost first_of: { Counts → ℕ };

    ghost line_read: { Counts → ℕ → List ℕ → Result (Self.Line × List ℕ) ReadFault };

    // The words that all lines make together, and how many those are, by the number of lines.
    ghost words_of: { List Self.Line → List ℕ };

    ghost room_of: { ℕ → ℕ };

    // The words once line i of so many is written into them.
    ghost line_written: { ℕ → ℕ → Self.Line → List ℕ → List ℕ };

    fn count(counts: Counts) -> u32
        ensures { result ≡ count_of counts };

    fn first_line(sizes: Sizes) -> u32
        ensures first { result ≡ first_of sizes.counts }
        ensures fits { first_of sizes.counts + count_of sizes.counts ≤ 1 + last_line };

    // Not one struct of `lines` and `sizes`: a line changes only the first, so each contract would also say that the sizes stay.
    fn read(lines: &mut Lines, sizes: Sizes, i: u32) -> Result<Self::Line, Refusal>
        requires { i < count_of sizes.counts }
        ensures { beside_result lines.new (told_at (first_of sizes.counts + i) result)
            ≡ line_read sizes.counts i lines.old };

    fn write(line: Self::Line, words: &mut [u32], count: usize, i: usize)
        requires counted { i < count }
        requires fits { length words.old ≡ room_of count }
        ensures { words.new ≡ line_written count i line words.old };
}

// Reads the lines of a section, and writes their words. It counts them, since a line is told and written by its number; of what a loop
// over an adapter of `iter_mut` wrote, a proof knows nothing. A law of the trait could say that the writes make exactly those
// words, but its proof would have to stand in specs/, so the caller shows it.
#[tactic(auto, using(crate::proofs::Sections::each_more))]
pub(crate) fn read_section<S: Section>(
    lines: &mut Lines,
    sizes: Sizes,
    words: &mut [u32],
) -> Result<(), ReadFault>
    requires writes_words { WritesWords S.line_written S.room_of S.words_of }
    requires fits { length words.old ≡ S.room_of (S.count_of sizes.counts) }
    ensures { holding words.new lines.new result
        ≡ as_words S.words_of
        (each (S.line_read sizes.counts) (range_with_len 0 (S.count_of sizes.counts))
        lines.old) }
{
    let count = S::count(sizes.counts) as usize;
    let first = S::first_line(sizes);
    for i in 0..count {
        let number = first + i as u32;
        let line = S::read(lines, sizes, i as u32).map_err(|refusal| refusal.at(number))?;
        S::write(line, words, count, i);
    }
    Ok(())
}
