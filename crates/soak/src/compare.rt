// What the history says of an item against what the calls did.
use crate::history::{Name, Place};
use crate::item::Item;
use crate::knowledge::Knowledge;
use crate::parlour::{Parlour, Step};
use crate::telling::Telling;
use std::alloc::AllocError;

#[derive(Clone, Copy, Debug, PartialEq, Eq)]
pub enum Difference {
    Answer,
    Verdicts,
    Image(u8),
    Told(Telling, u8),
    Names,
}

// Why a comparison stopped.
#[derive(Debug, PartialEq, Eq, Drop)]
pub enum Stop {
    Differs(Difference),
    Memory(AllocError),
}

impl From<AllocError> for Stop {
    fn from(error: AllocError) -> Stop {
        Stop::Memory(error)
    }
}

fn check(is_right: bool, difference: Difference) -> Result<(), Stop> {
    if is_right {
        Ok(())
    } else {
        Err(Stop::Differs(difference))
    }
}

impl Knowledge<'_> {
    // The head's own row has another meeting under the name of this one.
    fn is_mistaken(self, place: Option<Place>, name: Name) -> bool {
        (1..=self.stalls()).map(|r| self.latest(r)).any(|latest| latest != place
            && self.history.is_named(latest, name))
    }
}

impl Parlour {
    // Some own row has another meeting under the name of the newest one. Names of older meetings need no
    // look: own rows only lose those.
    fn is_ambiguous(&self) -> bool {
        let place = self.history.newest();
        self.history.meeting(place).is_some_and(|newest| {
            (1..=self.stalls()).any(|head| self.knowledge(head).is_mistaken(place, newest.name))
        })
    }

    // What a head tells is as the history says.
    fn check_telling(&self, telling: Telling, head: u8) -> Result<(), Stop> {
        check(
            self.told(telling, head).is_right()?,
            Difference::Told(telling, head),
        )
    }

    // A head's image, its heard list and its numbers are as the history says.
    fn check_head(&self, head: u8) -> Result<(), Stop> {
        let wanted = self.knowledge(head).image()?;
        check(
            wanted.as_slice() == self.heads.run(head),
            Difference::Image(head),
        )?;
        self.check_telling(Telling::List, head)?;
        self.check_telling(Telling::Counts, head)
    }

    // After an item the heads that it names are looked at, to save time: the images of the others were
    // not lent. After a list's last item all are.
    fn check_heads(&self, item: Item, is_last: bool) -> Result<(), Stop> {
        if is_last {
            for head in 1..=self.stalls() {
                self.check_head(head)?;
            }
            return Ok(());
        }
        self.check_head(item.head())?;
        match item.other_head() {
            Some(head) => self.check_head(head),
            None => Ok(()),
        }
    }

    // The panel of one head an item, to save time: after a meeting both have the same text.
    pub fn compare(&self, step: &Step, is_last: bool) -> Result<(), Stop> {
        check(step.wanted.answer == step.got.answer, Difference::Answer)?;
        check(step.wanted.run == step.got.run, Difference::Verdicts)?;
        self.check_heads(step.item, is_last)?;
        self.check_telling(Telling::Panel, step.item.head())?;
        check(!self.is_ambiguous(), Difference::Names)
    }
}
