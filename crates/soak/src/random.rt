// Pseudo-random numbers.
ghost use Rattle.std.specs.Prelude.{◌≤◌};

// Not Copy: a copy would draw the same numbers again.
#[derive(Debug, PartialEq, Eq, Drop)]
pub struct Random {
    state: u64,
}

// The next stall, round the parlour; from 0 the first.
pub fn after(stall: u8, n: u8) -> u8 {
    if stall < n { stall + 1 } else { 1 }
}

impl Random {
    pub fn new(seed: u64) -> Random {
        Random { state: seed }
    }

    // Multiplication modulo the prime 2^31 - 1: every number from 1 below it comes once in a round.
    fn next(&mut self) -> u64 {
        self.state = self.state % 2147483647 * 48271 % 2147483647;
        self.state
    }

    // A number below n, 0 where n is 0. No From narrows, so casts do, here and below: what is drawn fits.
    pub fn below(&mut self, n: u16) -> u16
        ensures { result ≤ n }
    {
        let drawn = (self.next() / 8 % 65536) as u16;
        drawn.checked_rem(n).unwrap_or(0)
    }

    // The same of bytes.
    pub fn below_byte(&mut self, n: u8) -> u8 {
        self.below(u16::from(n)) as u8
    }

    pub fn stall(&mut self, n: u8) -> u8 {
        after(self.below_byte(n), n)
    }

    pub fn other_stall(&mut self, n: u8, before: u8) -> u8 {
        let drawn = self.stall(n);
        if drawn == before {
            after(drawn, n)
        } else {
            drawn
        }
    }
}
