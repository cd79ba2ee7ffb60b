// What an image must hold, byte by byte, by the documents' rule on the table of one head, read of a history.
use crate::history::{Meeting, Place};
use crate::knowledge::Knowledge;
use crate::outcome::make_room;
use crate::sizes::{LONGEST, order_width};
use std::alloc::AllocError;

// The number for not milked, and for never heard.
const NOT_MILKED: u16 = 0xffff;

// A yield in two bytes.
pub fn yield_bytes(given: Option<u16>) -> [u8; 2] {
    given.unwrap_or(NOT_MILKED).to_be_bytes()
}

impl Knowledge<'_> {
    // The name of a meeting of a stall: its other stall, and its label; zeros where there is none.
    fn name_bytes(self, place: Option<Place>, stall: u8) -> [u8; 2] {
        match self.history.meeting(place) {
            Some(meeting) => [meeting.name.partner(stall), meeting.name.label],
            None => [0, 0],
        }
    }

    // The order entry of r: a bit for each stall s, set where the head's latest of r lies in the past of
    // its latest of s.
    fn order(self, r: u8) -> u16 {
        let of_r = self.latest(r);
        (1..=self.stalls()).rev().fold(0u16, |order, s| {
            order << 1 | u16::from(self.history.is_in_past(of_r, self.latest(s)))
        })
    }

    // The newest of each stall in the past of a meeting, by name.
    fn push_row(self, image: &mut Vec<u8>, meeting: Option<&Meeting>) -> Result<(), AllocError> {
        for r in 1..=self.stalls() {
            let newest = meeting.and_then(|meeting| meeting.newest(r));
            image.extend_from_slice(&self.name_bytes(newest, r))?;
        }
        Ok(())
    }

    // Row s is that of the latest of s; a head's own row is that of its last meeting, its own latest.
    fn push_rows(self, image: &mut Vec<u8>) -> Result<(), AllocError> {
        for s in 1..=self.stalls() {
            self.push_row(image, self.history.meeting(self.latest(s)))?;
        }
        Ok(())
    }

    fn push_yields(self, image: &mut Vec<u8>) -> Result<(), AllocError> {
        for s in 1..=self.stalls() {
            let given = self.history.yield_at(self.latest(s), s);
            image.extend_from_slice(&yield_bytes(given))?;
        }
        Ok(())
    }

    fn push_orders(self, image: &mut Vec<u8>) -> Result<(), AllocError> {
        for r in 1..=self.stalls() {
            let [high, low] = self.order(r).to_be_bytes();
            if order_width(self.stalls()) == 2 {
                image.push(high)?;
            }
            image.push(low)?;
        }
        Ok(())
    }

    // The image that a list leaves with the head. Behind it stand unwritten bytes.
    pub fn image(self) -> Result<Vec<u8>, AllocError> {
        let mut image = Vec::with_capacity(self.alloc, LONGEST)?;
        image.push(self.stalls())?;
        image.push(self.head)?;
        image.extend_from_slice(&yield_bytes(self.history.current(self.head)))?;
        self.push_rows(&mut image)?;
        self.push_yields(&mut image)?;
        self.push_orders(&mut image)?;
        make_room(&mut image, LONGEST)?;
        Ok(image)
    }
}
