// The items of a list, drawn at random, and what follows them.
use crate::history::History;
use crate::outcome::{Outcome, front_mut, unwritten};
use crate::random::{Random, after};
use crate::sizes::MOST;
use std::alloc::{AllocError, Global};
use std::fmt;

// No item's buffer is longer.
const ROOM: u8 = 2 * MOST;

#[derive(Clone, Copy, Debug, PartialEq, Eq)]
pub enum Item {
    Milking { stall: u8, given: u16 },
    Meeting { first: u8, second: u8, buffer: u8 },
}

// Who meets whom. Each way puts other pressure on the labels.
#[derive(Clone, Copy, Debug, PartialEq, Eq)]
pub enum Way {
    Anybody,
    Neighbours,
    // The first with anybody.
    First,
    // Mostly the same two again.
    Again,
}

impl Way {
    // The lists take them in turn, in this order.
    pub const ALL: [Way; 4] = [Way::Again, Way::First, Way::Neighbours, Way::Anybody];

    fn pair(self, random: &mut Random, history: &History) -> (u8, u8) {
        let n = history.stalls();
        let any = random.stall(n);
        match (self, history.meetings().last()) {
            (Way::Neighbours, _) => (any, after(any, n)),
            (Way::First, _) => (1, random.other_stall(n, 1)),
            (Way::Again, Some(before)) if random.below(10) < 6 => {
                (before.name.first, before.name.second)
            }
            (Way::Again | Way::Anybody, _) => (any, random.other_stall(n, any)),
        }
    }
}

// A buffer of n bytes, now and then of any length that there is room for.
fn buffer_length(random: &mut Random, n: u8) -> u8 {
    if random.below(10) == 0 {
        random.below_byte(ROOM + 1)
    } else {
        n
    }
}

// A yield; one in five is over 999, and some of these lie at the upper end, ffff among them.
fn new_yield(random: &mut Random) -> u16 {
    let drawn = random.below(1250);
    if drawn < 1200 {
        drawn
    } else {
        u16::MAX - drawn % 10
    }
}

impl Item {
    // Three in ten are milkings, one in five of them over 999; either head comes first.
    pub fn draw(random: &mut Random, history: &History, way: Way) -> Item {
        let n = history.stalls();
        if random.below(10) < 3 {
            let stall = random.stall(n);
            let given = new_yield(random);
            return Item::Milking { stall, given };
        }
        let (one, two) = way.pair(random, history);
        let (first, second) = if random.below(2) == 0 {
            (one, two)
        } else {
            (two, one)
        };
        let buffer = buffer_length(random, n);
        Item::Meeting {
            first,
            second,
            buffer,
        }
    }

    // The head that an item names, of two the first. Apart from the next function, since one for both is no plainer:
    // every item has this head, and only some have another.
    pub fn head(self) -> u8 {
        match self {
            Item::Milking { stall, .. } => stall,
            Item::Meeting { first, .. } => first,
        }
    }

    // The other head that it names.
    pub fn other_head(self) -> Option<u8> {
        match self {
            Item::Milking { .. } => None,
            Item::Meeting { second, .. } => Some(second),
        }
    }
}

// What follows a list item by item: the history, and the heads. It answers what a call answers, the number that C
// gets, since that is what is compared, and writes into the buffer what a call writes. The two are no twins: here
// they have no bodies.
pub trait Follower {
    fn milk(&mut self, stall: u8, given: u16) -> u32;

    fn meet(
        &mut self,
        alloc: Global,
        first: u8,
        second: u8,
        verdicts: &mut [u8],
    ) -> Result<u32, AllocError>;
}

impl Item {
    // What a follower makes of the item. A milking writes into no buffer.
    pub fn outcome<F: Follower>(
        self,
        alloc: Global,
        follower: &mut F,
    ) -> Result<Outcome, AllocError> {
        let mut run = unwritten(alloc, usize::from(ROOM))?;
        let answer = match self {
            Item::Milking { stall, given } => follower.milk(stall, given),
            Item::Meeting {
                first,
                second,
                buffer,
            } => {
                let verdicts = front_mut(run.as_mut_slice(), usize::from(buffer));
                follower.meet(alloc, first, second, verdicts)?
            }
        };
        Ok(Outcome { answer, run })
    }
}

impl fmt::Display for Item {
    fn fmt<W: fmt::Write>(&self, f: &mut fmt::Formatter<W>) -> fmt::Result {
        match self {
            Item::Milking { stall, given } => write!(f, "milking of {stall}, yield {given}"),
            Item::Meeting {
                first,
                second,
                buffer,
            } => write!(f, "meeting {first}-{second}, buffer {buffer}"),
        }
    }
}
