// A case whose answers are compared, and a line for each answer that is not the recorded one.
ghost use Rattle.std.specs.Prelude.{◌≡◌, ◌*◌, take};

use crate::body;
use crate::tally::{Sort, Tally};
use std::io;

#[derive(Drop)]
pub struct Case<'a, R> {
    rt: &'a R,
    tally: &'a mut Tally,
    pub body: &'a [u8],
}

impl<'a, R: Print> Case<'a, R> {
    // The case with this body, which is counted.
    pub fn new(rt: &'a R, tally: &'a mut Tally, body: &'a [u8]) -> Case<'a, R>
        ensures { result.body.now ≡ body.now }
    {
        tally.add(Sort::Cases);
        Case { rt, tally, body }
    }

    // The bytes of a section.
    pub fn section(&self, number: u32) -> &'a [u8] {
        body::section(self.body, number)
    }

    // The i-th number, from 0, of the inputs in a section.
    pub fn number_in(&self, section: u32, i: u8) -> u64 {
        body::number_in(self.body, section, i)
    }

    // Counts that an answer differs from the recorded one, and says so. Cases are numbered from 0.
    pub fn differs(&mut self, section: u32) -> io::Result<()> {
        self.tally.add(Sort::Disagreements);
        if let Some(case) = self.tally.count(Sort::Cases).checked_sub(1) {
            println!(self.rt; "case {case} section {section} differs")?;
        }
        Ok(())
    }

    // Counts an answer to a section, and whether it differs from the recorded one.
    pub fn compared(&mut self, sort: Sort, section: u32, agrees: bool) -> io::Result<()> {
        self.tally.add(sort);
        if agrees {
            Ok(())
        } else {
            self.differs(section)
        }
    }

    // Counts an answer in bytes.
    pub fn bytes(&mut self, sort: Sort, section: u32, answer: &[u8]) -> io::Result<()> {
        let agrees = answer == self.section(section);
        self.compared(sort, section, agrees)
    }

    // Counts an answer in numbers.
    pub fn numbers(&mut self, sort: Sort, section: u32, answer: &[u64]) -> io::Result<()> {
        let agrees = body::is_numbers(self.section(section), answer);
        self.compared(sort, section, agrees)
    }
}

// The first records of a buffer, so many of so many bytes each.
pub fn records(buf: &[u8], count: u64, width: usize) -> &[u8]
    ensures { result.now ≡ take (count * width) buf.now }
{
    wire::part(buf, 0, (count as usize).saturating_mul(width))
}
