// The heads of a parlour: their images, as the calls leave them.
use crate::item::Follower;
use crate::outcome::{Outcome, front, front_mut};
use crate::sizes::{DONE, LONGEST, image_length, index};
use std::alloc::{AllocError, Global};
use std::mem;

#[derive(Debug, PartialEq, Eq, Drop)]
pub struct Heads {
    // The bytes of each image, kept beside its run: behind them the run has bytes that no call may write.
    length: usize,
    runs: Vec<Vec<u8>>,
}

impl Heads {
    // Fresh images for stalls 1 to n; none where one is refused.
    pub fn fresh(alloc: Global, n: u8) -> Result<Option<Heads>, AllocError> {
        let length = image_length(n);
        let mut runs = Vec::new(alloc);
        for stall in 1..=n {
            let image = Outcome::of_call(alloc, LONGEST, length, |image| {
                head::wilbryn_fresh(image, n, stall)
            })?;
            if image.answer != DONE {
                return Ok(None);
            }
            runs.push(image.run)?;
        }
        Ok(Some(Heads { length, runs }))
    }

    // A head's image as the calls before left it, and what stands behind it.
    pub fn run(&self, head: u8) -> &[u8] {
        match index(head).and_then(|place| self.runs.get(place)) {
            Some(run) => run.as_slice(),
            None => &[],
        }
    }

    // The image alone, as it is lent.
    pub fn image(&self, head: u8) -> &[u8] {
        front(self.run(head), self.length)
    }

    fn run_mut(&mut self, head: u8) -> Option<&mut Vec<u8>> {
        self.runs.get_mut(index(head)?)
    }

    fn image_mut(&mut self, head: u8) -> &mut [u8] {
        let length = self.length;
        match self.run_mut(head) {
            Some(run) => front_mut(run.as_mut_slice(), length),
            None => &mut [],
        }
    }

    // Puts a run in the place of a head's, which it hands back.
    fn exchange(&mut self, head: u8, run: Vec<u8>) -> Vec<u8> {
        match self.run_mut(head) {
            Some(place) => mem::replace(place, run),
            None => run,
        }
    }
}

impl Follower for Heads {
    fn milk(&mut self, stall: u8, given: u16) -> u32 {
        head::wilbryn_milking(self.image_mut(stall), given)
    }

    // The second head's run is taken out meanwhile, since one list does not lend two places to be written.
    fn meet(
        &mut self,
        alloc: Global,
        first: u8,
        second: u8,
        verdicts: &mut [u8],
    ) -> Result<u32, AllocError> {
        let length = self.length;
        let mut run = self.exchange(second, Vec::new(alloc));
        let other = front_mut(run.as_mut_slice(), length);
        let answer = head::wilbryn_meeting(self.image_mut(first), other, verdicts);
        self.exchange(second, run);
        Ok(answer)
    }
}
