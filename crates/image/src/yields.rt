// Yields: what one may be, check 4, and those of a head that was not milked.
ghost use Rattle.std.specs.Prelude.{◌≡◌, ◌+◌, ◌-◌, ◌*◌, ◌≤◌, not, ◌++◌, eqb, length, take, drop};
ghost use Rattle.image.specs.Stalls.{some, each};
ghost use Rattle.image.specs.Lanes.{lane, fours};
ghost use Rattle.image.specs.Layout.{is_yield, largest, no_yield, word};
ghost use Rattle.image.specs.Encode.{word_bytes};
ghost use Rattle.image.specs.Frame.{Sized};
ghost use Rattle.image.specs.Check.{bad_yields};

use crate::Head;
use crate::bytes::word_at;
use crate::orders::orders_place;
use crate::words::{FIFTEENS, FOUR_ONES, SIXTEENTHS, first_lanes, four_numbers};

// The number for not milked. Of a usize, since it is public; its callers have two bytes.
#[tactic(auto, unfolding(crate::specs::Layout::no_yield))]
pub fn is_not_milked(x: usize) -> bool
    ensures { result ≡ eqb x no_yield }
{
    x == usize::from(Head::NO_YIELD)
}

// A number that a yield in an image may be.
#[tactic(auto, unfolding(crate::specs::Layout::is_yield))]
fn is_yield(x: u16) -> bool
    ensures { result ≡ is_yield x }
{
    (x <= Head::YIELD_LIMIT) | is_not_milked(usize::from(x))
}

// What takes the lower fifteen bits of a number to the sixteenth where they are over the limit; and, where that is set already, where the
// number is the one for not milked. (Casts: a constant calls no From.)
const OVER: u64 = (0x7fff - Head::YIELD_LIMIT as u64) * FOUR_ONES;

const NONE: u64 = (0x10000 - Head::NO_YIELD as u64) * FOUR_ONES;

// Of four numbers in the lanes of a word, some is none that a yield may be.
#[tactic(auto, using(crate::proofs::YieldLanes::four_lanes))]
fn bad_four(w: u64) -> bool
    ensures { result ≡ some 4 (λ j. not (is_yield (lane 16 w (j - 1)))) }
{
    let low = w & FIFTEENS;
    let over = (w | (low + OVER)) & SIXTEENTHS;
    let none = (w & (low + NONE)) & SIXTEENTHS;
    over != none
}

// Some of so many numbers from a place on, and of those behind them to a whole four, is none that a yield may be. Counted by hand: with
// `for seen in (0..count).step_by(4)`, which proves too, the check of two to eight heads takes 1.04 to 1.08 of the time of the older code, as it stands
// 0.99 to 1.05, and 1.05 is the most that a call may take. No chunks_exact(8): firmware/products, which follows what the check calls, refuses it.
fn bad_fours(image: &[u8], at: usize, count: usize) -> bool
    requires { (count ≤ largest) × (at + count * 2 + 6 ≤ length image.now) }
    ensures { result ≡ some (fours count) (λ s. not (is_yield (word image.now (at + (s - 1) * 2)))) }
{
    let mut bad = false;
    let mut place = at;
    let mut seen = 0usize;
    while seen < count {
        bad |= bad_four(four_numbers(image, place));
        place += 8;
        seen += 4;
    }
    bad
}

// Some of n numbers that end at a place is none that a yield may be: of the last four, or of those before, in fours from the first on.
#[tactic(auto, using(crate::proofs::YieldLanes::parts))]
fn some_bad_yield(image: &[u8], n: usize, end: usize) -> bool
    requires { (2 ≤ n) × (n ≤ largest) × (n * 2 ≤ end) × (8 ≤ end) × (end ≤ length image.now) }
    ensures { result ≡ some n (λ s. not (is_yield (word image.now (end - n * 2 + (s - 1) * 2)))) }
{
    let last = bad_four(four_numbers(image, end - 8) & first_lanes(n));
    if n <= 4 {
        return last;
    }
    bad_fours(image, end - n - n, n - 4) | last
}

// Check 4.
#[tactic(auto, using(crate::proofs::Places::from_end), unfolding(crate::specs::Check::bad_yields))]
pub(crate) fn bad_yields(image: &[u8], n: usize) -> bool
    requires { Sized image.now n }
    ensures { result ≡ bad_yields image.now n }
{
    !is_yield(word_at(image, 2)) | some_bad_yield(image, n, orders_place(image.len(), n))
}

// So many yields from a place on become those of heads that were not milked. By an index: tried with chunks_exact_mut(2), what the run holds in the
// end stayed open, since std promises of what is written through its chunks the length alone.
pub(crate) fn put_no_yields(image: &mut [u8], at: usize, count: usize)
    requires { at + count * 2 ≤ length image.old }
    ensures { image.new ≡ take at image.old ++ each count (λ s. word_bytes no_yield) ++ drop (at + count * 2) image.old }
{
    let [high, low] = Head::NO_YIELD.to_be_bytes();
    for c in 0..count {
        image[at + 2 * c] = high;
        image[at + 2 * c + 1] = low;
    }
}
