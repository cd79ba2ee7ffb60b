// What the lists of one size came to.
use crate::item::Item;
use crate::parlour::{Parlour, Step};
use crate::sizes::{DONE, Refusal};
use std::alloc::AllocError;

#[derive(Clone, Copy, Debug, Default, PartialEq, Eq)]
pub struct Tally {
    items: u64,
    milkings: u64,
    meetings: u64,
    refused_milkings: u64,
    refused_meetings: u64,
    largest_label: u32,
    moved: u64,
    settled: u64,
    characters: u64,
    pub differences: u64,
}

// The cast widens: From has none from a length.
fn add(total: &mut u64, count: usize) {
    *total = total.saturating_add(count as u64);
}

impl Tally {
    // An item and its answer, and what the head that it names says of what it has heard.
    pub fn note(&mut self, parlour: &Parlour, step: &Step) -> Result<(), AllocError> {
        let knowledge = parlour.knowledge(step.item.head());
        add(&mut self.moved, knowledge.moved()?);
        add(&mut self.settled, knowledge.settled());
        let text = knowledge.text()?;
        add(&mut self.characters, text.len());
        add(&mut self.items, 1);
        let answer = step.got.answer;
        match step.item {
            Item::Milking { .. } if answer == DONE => add(&mut self.milkings, 1),
            Item::Milking { .. } => add(&mut self.refused_milkings, 1),
            Item::Meeting { .. } if answer < Refusal::ABOVE => {
                add(&mut self.meetings, 1);
                self.largest_label = self.largest_label.max(answer);
            }
            Item::Meeting { .. } => add(&mut self.refused_meetings, 1),
        }
        Ok(())
    }

    pub fn note_difference(&mut self) {
        add(&mut self.differences, 1);
    }
}

// A text and a number, each in a write of its own: one that fails loses its own piece alone.
pub fn say_number(rt: &impl Print, text: &str, number: u64) {
    print!(rt; "{text}").ok();
    print!(rt; "{number}").ok();
}

impl Tally {
    // What it came to, piece by piece: a Display would be written at once, and lost as a whole.
    pub fn say(&self, rt: &impl Print) {
        say_number(rt, " lists, ", self.items);
        say_number(rt, " items: ", self.milkings);
        say_number(rt, " milkings, ", self.meetings);
        say_number(rt, " meetings, refused ", self.refused_milkings);
        say_number(rt, " with 4 and ", self.refused_meetings);
        say_number(rt, " with 8; largest label ", u64::from(self.largest_label));
        say_number(rt, ", ", self.moved);
        say_number(rt, " records moved, ", self.settled);
        say_number(rt, " numbers of n, ", self.characters);
        say_number(rt, " characters on panels; ", self.differences);
        println!(rt; " differences").ok();
    }
}
