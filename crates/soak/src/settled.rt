// Who has heard it all: for each stall the number of stalls that a head knows to have heard its latest
// of that stall. Read of a history, by the documents' rule alone.
use crate::knowledge::Knowledge;
use crate::outcome::Outcome;
use crate::sizes::DONE;
use std::alloc::AllocError;

impl Knowledge<'_> {
    // The stalls s such that the head's latest of r lies in the past of its latest of s. None lies in no
    // past, so there are 0 where r was never heard.
    fn count(self, r: u8) -> usize {
        let of_r = self.latest(r);
        (1..=self.stalls())
            .filter(|&s| self.history.is_in_past(of_r, self.latest(s)))
            .count()
    }

    // What the call of the numbers of what is settled must answer and write.
    pub fn counts(self) -> Result<Outcome, AllocError> {
        Ok(Outcome {
            answer: DONE,
            run: (1..=self.stalls())
                .map(|r| u8::try_from(self.count(r)).unwrap_or(u8::MAX))
                .collect(self.alloc)?,
        })
    }

    // How many of the head's numbers are n: there all have that meeting or a newer one.
    pub fn settled(self) -> usize {
        (1..=self.stalls())
            .filter(|&r| self.count(r) == usize::from(self.stalls()))
            .count()
    }
}
