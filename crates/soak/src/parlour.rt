// A parlour both ways: what the history says of it, and its heads as the calls leave them.
use crate::heads::Heads;
use crate::history::History;
use crate::item::Item;
use crate::knowledge::Knowledge;
use crate::outcome::Outcome;
use std::alloc::{AllocError, Global};

#[derive(Debug, PartialEq, Eq, Drop)]
pub struct Parlour {
    pub alloc: Global,
    pub history: History,
    pub heads: Heads,
}

// An item, what the history says of it, and what the calls did.
#[derive(Debug, PartialEq, Eq, Drop)]
pub struct Step {
    pub item: Item,
    pub wanted: Outcome,
    pub got: Outcome,
}

impl Parlour {
    // One of n stalls with fresh images; none where an image is refused.
    pub fn fresh(alloc: Global, n: u8) -> Result<Option<Parlour>, AllocError> {
        let history = History::new(alloc, n)?;
        match Heads::fresh(alloc, n)? {
            Some(heads) => Ok(Some(Parlour {
                alloc,
                history,
                heads,
            })),
            None => Ok(None),
        }
    }

    pub fn stalls(&self) -> u8 {
        self.history.stalls()
    }

    // What the history says of a head.
    pub fn knowledge(&self, head: u8) -> Knowledge<'_> {
        Knowledge {
            alloc: self.alloc,
            history: &self.history,
            head,
        }
    }

    // Does an item both ways.
    pub fn step(&mut self, item: Item) -> Result<Step, AllocError> {
        let wanted = item.outcome(self.alloc, &mut self.history)?;
        let got = item.outcome(self.alloc, &mut self.heads)?;
        Ok(Step { item, wanted, got })
    }
}
