// Bytes of an image read as numbers, where rows and yields start, the checks 1 and 3, and zeros.
ghost use Rattle.std.specs.Prelude.{◌≡◌, ◌+◌, ◌-◌, ◌<◌, ◌≤◌, cond, not, eqb, ◌++◌, length, take, replicate};
ghost use Rattle.image.specs.Layout.{is_count, largest, row_place, word, yields_from};
ghost use Rattle.image.specs.Check.{bad_stall};

use crate::orders::orders_place;
use crate::{Image, LARGEST};

// The two bytes at a place as a number, high byte first. Its two bytes are listed, as those of names.rt's two_at and the eight of words.rt are: in what
// the check calls firmware/products follows of std's methods `len` and `saturating_sub` alone, no copy_from_slice and no first_chunk.
pub(crate) fn word_at(image: &[u8], at: usize) -> u16
    requires { at + 1 < length image.now }
    ensures { result ≡ word image.now at }
{
    u16::from_be_bytes([image[at], image[at + 1]])
}

// Where the row of stall r starts in an image of n stalls.
pub fn row_place(n: u8, r: u8) -> usize
    ensures { result ≡ row_place n r }
{
    4 + usize::from(r).saturating_sub(1) * (2 * usize::from(n))
}

// One of two.
pub(crate) fn either<T: Copy>(t: bool, x: T, y: T) -> T
    ensures { result ≡ cond t x y }
{
    if t { x } else { y }
}

// Where the own row starts, by the four bits of how many rows stand before it: with no product, and no loop that could be made one.
#[tactic(auto, using(crate::proofs::RowStart::by_bits))]
pub(crate) fn row_start(x: &Image<'_>) -> usize
    ensures { result ≡ row_place x.now.n x.now.own }
{
    let rows = usize::from(x.own) - 1;
    let n = usize::from(x.n);
    let one = n + n;
    let two = one + one;
    let four = two + two;
    4 + either(rows & 1 == 0, 0, one)
        + either(rows & 2 == 0, 0, two)
        + either(rows & 4 == 0, 0, four)
        + either(rows & 8 == 0, 0, four + four)
}

// Where the yields of an image of n stalls start, counted from its end.
pub fn yields_place(length: usize, n: usize) -> usize
    ensures { result ≡ yields_from length n }
{
    orders_place(length, n).saturating_sub(n).saturating_sub(n)
}

// Check 3: a parlour of n heads has no such stall. Two comparisons, here and in is_count: firmware/products follows no `contains`. The
// tests of the check answer bool: what they refuse is one number each, said where they are called.
pub fn bad_stall(n: u8, own: u8) -> bool
    ensures { result ≡ bad_stall n own }
{
    !(1 <= own && own <= n)
}

// n is that of a parlour.
pub fn is_count(n: u8) -> bool
    ensures { result ≡ is_count n }
{
    2 <= n && n <= LARGEST
}

// Check 1 of an image that is not empty.
pub fn bad_count(n: u8) -> bool
    ensures { result ≡ not (is_count n) }
{
    !is_count(n)
}

// Zeros in all of a run. By a loop: the library's `fill`, which proves too, writes the last byte by itself, and took 1.5 to 4 ns more a call in a
// trial of such runs, where a fresh table takes some ten and 1.05 is the most that a call may take.
fn clear(bytes: &mut [u8])
    ensures { bytes.new ≡ replicate (length bytes.old) 0 }
{
    for byte in bytes.iter_mut() {
        *byte = 0;
    }
}

// Zeros from a place on, if there is anything.
pub fn clear_from(bytes: &mut [u8], at: usize)
    ensures { bytes.new ≡ take at bytes.old ++ replicate (length bytes.old - at) 0 }
{
    if at < bytes.len() {
        clear(&mut bytes[at..]);
    }
}
