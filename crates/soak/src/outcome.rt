// What a call answers and what it leaves in the buffer that it is lent.
//
// A buffer is the front of a longer run of unwritten bytes, and the whole run is compared, so that a call that
// writes behind its buffer shows.
use std::alloc::{AllocError, Global};
use std::fmt;

// What stands in bytes that nothing has written yet.
const UNWRITTEN: u8 = 238;

// A run that nothing has written to.
pub fn unwritten(alloc: Global, length: usize) -> Result<Vec<u8>, AllocError> {
    vec![in alloc; UNWRITTEN; length]
}

// Puts unwritten bytes behind what a run holds, until it has a length.
pub fn make_room(run: &mut Vec<u8>, length: usize) -> Result<(), AllocError> {
    run.resize(length, UNWRITTEN)
}

// The first bytes of a run, or all where it has no more.
pub fn front(run: &[u8], length: usize) -> &[u8] {
    run.get(..length).unwrap_or(run)
}

// The same, to be written: no function is over both kinds of loan.
pub fn front_mut(run: &mut [u8], length: usize) -> &mut [u8] {
    let length = length.min(run.len());
    &mut run[..length]
}

#[derive(Debug, PartialEq, Eq, Drop)]
pub struct Outcome {
    // The number that a call gives C, since that is what is compared.
    pub answer: u32,
    // The buffer, and what stands behind it.
    pub run: Vec<u8>,
}

impl Outcome {
    // That of a call on a buffer of a length, in front of a run of a length.
    pub fn of_call<F: FnOnce(&mut [u8]) -> u32>(
        alloc: Global,
        room: usize,
        length: usize,
        call: F,
    ) -> Result<Outcome, AllocError>
        requires { F.IsAlwaysCallable call }
    {
        let mut run = unwritten(alloc, room)?;
        let answer = call(front_mut(run.as_mut_slice(), length));
        Ok(Outcome { answer, run })
    }
}

// Bytes in hexadecimal.
#[derive(Clone, Copy, Debug, PartialEq, Eq)]
pub struct Hex<'a>(pub &'a [u8]);

impl<'a> fmt::Display for Hex<'a> {
    fn fmt<W: fmt::Write>(&self, f: &mut fmt::Formatter<W>) -> fmt::Result {
        for byte in self.0 {
            write!(f, "{byte:02x}")?;
        }
        Ok(())
    }
}
