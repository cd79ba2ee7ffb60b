// The sizes and numbers that the documents give. They are written here again, apart from the crates that are under
// test, on purpose: what those have wrong must show.
ghost use Rattle.std.specs.Prelude.{◌≤◌};

// "N may be 2 to 16."
pub const MOST: u8 = 16;

// The same as a length: a constant cannot call From.
pub const STALLS: usize = MOST as usize;

// The bytes of an image of the largest parlour.
pub const LONGEST: usize = 4 + STALLS * (2 * STALLS + 4);

// Every list has fewer items than this.
pub const ITEMS: u16 = 480;

// "Its buffer becomes 256 bytes for every N."
pub const PANEL: usize = 256;

// A milking counts when its yield in decilitres is at most this.
pub const YIELD_LIMIT: u16 = 999;

// What a call answers that is not refused and has nothing else to tell.
pub const DONE: u32 = 0;

// The refusals that a list can meet, by the documents' numbers.
#[derive(Clone, Copy, Debug, PartialEq, Eq)]
pub enum Refusal {
    Yield = 4,
    Buffer = 8,
}

impl Refusal {
    // A label or a count is below this, and a refusal of a call that answers one is its number above.
    pub const ABOVE: u32 = 256;

    // What a call answers that has nothing else to tell: C's interface, as is the other. From reads no number of
    // an enum, so the cast does.
    pub fn number(self) -> u32
        ensures { result ≤ 8 }
    {
        self as u32
    }

    // What a call answers that tells a label or a count.
    pub fn answer(self) -> u32 {
        Refusal::ABOVE + self.number()
    }
}

// Where what is told of a stall stands: stalls are counted from 1, so 0 has no place.
pub fn index(stall: u8) -> Option<usize> {
    usize::from(stall).checked_sub(1)
}

// The bytes of an order entry: "From 9 up, an order byte becomes two bytes".
pub fn order_width(n: u8) -> usize
    ensures { result ≤ 2 }
{
    if n < 9 { 1 } else { 2 }
}

// The header, then for each stall a row of n names, a yield and an order entry.
pub fn image_length(n: u8) -> usize {
    let stalls = usize::from(n);
    4 + stalls * (2 * stalls + 2 + order_width(n))
}
