// The calls that read an image and tell of it in a buffer.
use crate::outcome::{Outcome, make_room, unwritten};
use crate::parlour::Parlour;
use crate::sizes::{PANEL, Refusal, STALLS};
use std::alloc::AllocError;
use std::fmt;

#[derive(Clone, Copy, Debug, PartialEq, Eq)]
pub enum Telling {
    List,
    Counts,
    Panel,
}

impl fmt::Display for Telling {
    fn fmt<W: fmt::Write>(&self, f: &mut fmt::Formatter<W>) -> fmt::Result {
        f.write_str(match self {
            Telling::List => "heard list",
            Telling::Counts => "settled numbers",
            Telling::Panel => "panel",
        })
    }
}

// Answers are numbers: what the calls give C, and that is what is compared.
impl Telling {
    fn call(self, image: &[u8], buffer: &mut [u8]) -> u32 {
        match self {
            Telling::List => head::wilbryn_heard(image, buffer),
            Telling::Counts => head::wilbryn_settled(image, buffer),
            Telling::Panel => panel::wilbryn_panel(image, buffer),
        }
    }

    // How long its buffer is for n heads.
    fn length(self, n: u8) -> usize {
        match self {
            Telling::List => 3 * usize::from(n),
            Telling::Counts => usize::from(n),
            Telling::Panel => PANEL,
        }
    }

    // How long the run is that its buffers stand in front of.
    fn room(self) -> usize {
        match self {
            Telling::List => 4 * STALLS,
            Telling::Counts => 2 * STALLS,
            Telling::Panel => PANEL + 1,
        }
    }

    // What it answers to a buffer of another length. The numbers of what is settled come with no count.
    fn refusal(self) -> u32 {
        match self {
            Telling::Counts => Refusal::Buffer.number(),
            Telling::List | Telling::Panel => Refusal::Buffer.answer(),
        }
    }
}

// What is told of one head of a parlour.
#[derive(Clone, Copy, Debug, PartialEq, Eq)]
pub struct Told<'a> {
    parlour: &'a Parlour,
    pub telling: Telling,
    pub head: u8,
}

impl Parlour {
    pub fn told(&self, telling: Telling, head: u8) -> Told<'_> {
        Told {
            parlour: self,
            telling,
            head,
        }
    }
}

impl Told<'_> {
    // How long the buffer is.
    pub fn length(self) -> usize {
        self.telling.length(self.parlour.stalls())
    }

    // Other lengths, which the call must refuse: a byte more, and for a panel a byte fewer too.
    pub fn refused_lengths(self) -> [Option<usize>; 2] {
        let length = self.length();
        let shorter = match self.telling {
            Telling::Panel => length.checked_sub(1),
            Telling::List | Telling::Counts => None,
        };
        [shorter, length.checked_add(1)]
    }

    // What the history says of the head, with unwritten bytes behind.
    pub fn wanted(self) -> Result<Outcome, AllocError> {
        let knowledge = self.parlour.knowledge(self.head);
        let mut wanted = match self.telling {
            Telling::List => knowledge.list()?,
            Telling::Counts => knowledge.counts()?,
            Telling::Panel => knowledge.panel()?,
        };
        make_room(&mut wanted.run, self.telling.room())?;
        Ok(wanted)
    }

    // What the call does with the head's image and a buffer of a length.
    pub fn got(self, length: usize) -> Result<Outcome, AllocError> {
        let image = self.parlour.heads.image(self.head);
        Outcome::of_call(self.parlour.alloc, self.telling.room(), length, |buffer| {
            self.telling.call(image, buffer)
        })
    }

    // The call refuses a buffer of a length, and writes nothing.
    fn is_refused(self, length: usize) -> Result<bool, AllocError> {
        let wanted = Outcome {
            answer: self.telling.refusal(),
            run: unwritten(self.parlour.alloc, self.telling.room())?,
        };
        Ok(self.got(length)? == wanted)
    }

    // The call does what the history says, and refuses a buffer of another length.
    pub fn is_right(self) -> Result<bool, AllocError> {
        if self.got(self.length())? != self.wanted()? {
            return Ok(false);
        }
        for length in self.refused_lengths().into_iter().flatten() {
            if !self.is_refused(length)? {
                return Ok(false);
            }
        }
        Ok(true)
    }
}
