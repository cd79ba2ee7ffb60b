// The text of a head's wall panel: a line for each stall that it has heard of. Made of the records that a
// history gives, by the documents' rule alone.
use crate::knowledge::Knowledge;
use crate::outcome::Outcome;
use crate::sizes::PANEL;
use std::alloc::AllocError;
use std::fmt;

// "Yield in litres with one decimal, or `-` for not milked".
#[derive(Clone, Copy, Debug, PartialEq, Eq)]
struct Litres(Option<u16>);

impl fmt::Display for Litres {
    fn fmt<W: fmt::Write>(&self, f: &mut fmt::Formatter<W>) -> fmt::Result {
        match self.0 {
            Some(given) => write!(f, "{}.{}", given / 10, given % 10),
            None => f.write_str("-"),
        }
    }
}

impl Knowledge<'_> {
    // "Rank, stall, yield, single blanks between, newline after each"; the order is that of the records.
    pub fn text(self) -> Result<String, AllocError> {
        let mut text = String::new(self.alloc);
        let records = self.records()?;
        for (rank, record) in (1u8..).zip(records.iter()) {
            let litres = Litres(record.given);
            writeln!(text, "{rank} {} {litres}", record.stall)?;
        }
        Ok(text)
    }

    // What the call of the panel must answer and write: "the rest of the buffer is zeros and the written length
    // comes back".
    pub fn panel(self) -> Result<Outcome, AllocError> {
        let mut run = self.text()?.into_bytes();
        let answer = u32::try_from(run.len()).unwrap_or(u32::MAX);
        run.resize(PANEL, 0)?;
        Ok(Outcome { answer, run })
    }
}
