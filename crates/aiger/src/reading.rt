// Reading a netlist's text into lent words.
ghost use Rattle.std.specs.Prelude.{◌≡◌, ◌≤◌, length, take, drop, replicate, IfOk, OnOk, Ok, Err};
ghost use Rattle.circuits.specs.Net.{layout, room};
ghost use Rattle.aiger.specs.Beside.{beside_result, holding, as_words};
ghost use Rattle.aiger.specs.Reading as spec;
ghost use Rattle.aiger.specs.Laws.{Laws};

use crate::fault::{ReadFault, Refusal};
use crate::flops::Flops;
use crate::gates::Gates;
use crate::inputs::Inputs;
use crate::lines::{Header, Lines};
use crate::outputs::Outputs;
use crate::section::read_section;
use crate::sizes::Sizes;
use circuits::counts::Counts;

fn counts_fit(header: &Header) -> bool
    ensures { result ≡ spec.counts_fit header.now }
{
    header.counts.in_bounds() && u64::from(header.last) == header.counts.last_net()
}

fn header_line(lines: &mut Lines, lent: usize) -> Result<Sizes, ReadFault>
    ensures line { as_words (λ sizes. sizes.counts) (beside_result lines.new result)
        ≡ as_words (λ header. header.counts) (spec.header_line lent lines.old) }
    ensures fits { IfOk result (λ sizes. room sizes.counts ≤ lent) }
{
    let header = lines.header().ok_or(Refusal::MalformedHeader.at(1))?;
    if !counts_fit(&header) {
        return Err(Refusal::WrongCounts.at(1));
    }
    let sizes = Sizes {
        counts: header.counts,
    };
    if (lent as u64) < sizes.counts.room() {
        return Err(Refusal::FewWords.at(1));
    }
    Ok(sizes)
}

// Reads what follows line 1, and writes the circuit's words to the front of `words`.
#[tactic(auto, using(crate::proofs::Sections::section_words))]
fn sections(lines: &mut Lines, sizes: Sizes, words: &mut [u32]) -> Result<(), ReadFault>
    requires { room sizes.counts ≤ length words.old }
    ensures front { holding (take (room sizes.counts) words.new) lines.new result
        ≡ as_words layout (spec.sections sizes.counts lines.old) }
    ensures later { OnOk result
        (drop (room sizes.counts) words.new ≡ drop (room sizes.counts) words.old) }
{
    let counts = sizes.counts;
    let (gate_words, rest) = words.split_at_mut(2 * counts.gates as usize);
    let (flop_words, rest) = rest.split_at_mut(2 * counts.flops as usize);
    let (output_words, _) = rest.split_at_mut(counts.outputs as usize);
    read_section::<Inputs>(lines, sizes, &mut [])?;
    read_section::<Flops>(lines, sizes, flop_words)?;
    read_section::<Outputs>(lines, sizes, output_words)?;
    read_section::<Gates>(lines, sizes, gate_words)
}

// Writes the circuit's words to the front of `words`, or says why not.
fn fill(text: &[u8], words: &mut [u32]) -> Result<Counts, ReadFault>
    ensures answer { result ≡ spec.answered (spec.reading (length words.old) text.now) }
    ensures written { elim result [ Ok c ↦ words.new | Err f ↦ replicate (length words.old) 0 ]
        ≡ spec.words_after (spec.reading (length words.old) text.now) words.old }
    ensures laws { Laws (length words.old) text.now }
{
    let mut lines = Lines::new(text);
    let sizes = header_line(&mut lines, words.len())?;
    sections(&mut lines, sizes, words)?;
    Ok(sizes.counts)
}

// Reads a netlist's text into the lent words: its operands, next literals, pins and outputs. Later words are left as they
// were; a refused text leaves every word 0. A caller lends the two apart, so they are no struct.
pub fn read(text: &[u8], words: &mut [u32]) -> Result<Counts, ReadFault>
    ensures answer { result ≡ spec.answered (spec.reading (length words.old) text.now) }
    ensures written { words.new ≡ spec.words_after (spec.reading (length words.old) text.now) words.old }
    ensures laws { Laws (length words.old) text.now }
{
    let answer = fill(text, words);
    if answer.is_err() {
        words.fill(0);
    }
    answer
}
