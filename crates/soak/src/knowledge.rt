// What one head knows, as the history says it: all that the calls tell of a head is read of this.
use crate::history::{History, Place};
use std::alloc::Global;

#[derive(Clone, Copy, Debug, PartialEq, Eq)]
pub struct Knowledge<'a> {
    pub alloc: Global,
    pub history: &'a History,
    pub head: u8,
}

impl Knowledge<'_> {
    pub fn stalls(self) -> u8 {
        self.history.stalls()
    }

    // The head's latest of a stall.
    pub fn latest(self, stall: u8) -> Option<Place> {
        self.history.latest(self.head, stall)
    }
}
