// What the checker reports of the two netlists of a folder.
ghost use Rattle.std.specs.Prelude.{◌≡◌, length, IfOk, Some, vec_len};
ghost use Rattle.circuits.specs.Net.{most_words};
ghost use Rattle.aiger.specs.Reading.{reading, words_after};
ghost use Rattle.checker.specs.Report as spec;
ghost use Rattle.checker.specs.Summary.{summed};

use crate::summary::Summary;
use netlists::{MOST_WORDS, Numbered, ReadFault, Side};
use std::alloc::{AllocError, Global};
use std::fmt;

// The most bytes that a file may have.
pub const MOST_BYTES: usize = 65_536;

// No Result: each of the three is a line to print, and one Display proves them all.
#[derive(Clone, Copy, Debug, PartialEq, Eq)]
pub enum Report {
    // a file has more than MOST_BYTES bytes
    TooLong,
    // a netlist's text is refused
    Refused(Side, ReadFault),
    // both netlists are read; what is told of the original, and of the gated one
    Read(Summary, Summary),
}

// The texts of the two netlists.
#[derive(Clone, Copy, Debug, PartialEq, Eq)]
pub struct Texts<'t> {
    pub original: &'t [u8],
    pub gated: &'t [u8],
}

impl<'t> Texts<'t> {
    fn too_long(self) -> bool
        ensures { result ≡ spec.too_long self.entry.original.now self.entry.gated.now }
    {
        self.original.len() > MOST_BYTES || self.gated.len() > MOST_BYTES
    }
}

// Words enough for every netlist.
fn netlist_words(heap: Global) -> Result<Vec<u32>, AllocError>
    ensures len { IfOk result (λ v. vec_len v ≡ most_words) }
    ensures enough { spec.WordsSuffice }
{
    vec![in heap; 0; MOST_WORDS]
}

impl Report {
    // What is told of two readings, of the original first.
    fn of_answers(original: Result<Summary, ReadFault>, gated: Result<Summary, ReadFault>) -> Report
        ensures { result ≡ spec.of_answers original gated }
    {
        match (original, gated) {
            (Err(fault), _) => Report::Refused(Side::Original, fault),
            (Ok(_), Err(fault)) => Report::Refused(Side::Gated, fault),
            (Ok(a), Ok(b)) => Report::Read(a, b),
        }
    }

    // Reads the two netlists, each into the same lent words.
    fn of_texts(texts: Texts, words: &mut [u32]) -> Report
        ensures report { result ≡ spec.of_answers (summed (reading (length words.old) texts.entry.original.now))
            (summed (reading (length words.old) texts.entry.gated.now)) }
        ensures after { words.new ≡ words_after (reading (length words.old) texts.entry.gated.now)
            (words_after (reading (length words.old) texts.entry.original.now) words.old) }
    {
        let original = Summary::of_text(texts.original, words);
        let gated = Summary::of_text(texts.gated, words);
        Report::of_answers(original, gated)
    }

    // Reads the two netlists of a folder.
    pub fn of(heap: Global, texts: Texts) -> Result<Report, AllocError>
        ensures { IfOk result (λ x. x ≡ spec.report texts.entry.original.now texts.entry.gated.now) }
    {
        if texts.too_long() {
            return Ok(Report::TooLong);
        }
        let mut words = netlist_words(heap)?;
        Ok(Report::of_texts(texts, &mut words))
    }

    pub fn both_read(&self) -> bool
        ensures { result ≡ spec.both_read self.now }
    {
        matches!(self, Report::Read(_, _))
    }
}

impl fmt::Display for Report {
    ghost output = { λ r. Some (spec.line r) };

    fn fmt<W: fmt::Write>(&self, f: &mut fmt::Formatter<W>) -> fmt::Result {
        match *self {
            Report::TooLong => write!(f, "too long"),
            Report::Refused(side, fault) => {
                let number = fault.refusal.number();
                let line = fault.line;
                write!(f, "refused {number} netlist {side} line {line}")
            }
            Report::Read(a, b) => write!(f, "read netlist a with {a} and netlist b with {b}"),
        }
    }
}
