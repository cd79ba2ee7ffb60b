// The order marks of an image: check 6. Sets of stalls are numbers.
ghost use Rattle.std.specs.Prelude.{◌≡◌, ◌-◌, ◌^◌, ◌<◌, ◌≤◌, cond, not, ◌||◌, eqb};
ghost use Rattle.std.specs.Int.Bits.{bit_and};
ghost use Rattle.image.specs.Stalls.{bits, bit_of};
ghost use Rattle.image.specs.Layout.{largest, heard_at};
ghost use Rattle.image.specs.Check.{bad_marks};

use crate::Image;
use crate::bytes::either;
use crate::orders::{order_width, orders_place, whole_order};

// x, or nothing.
pub fn pick(b: bool, x: u64) -> u64
    ensures { (result ≡ cond b x 0) × (result ≤ x) }
{
    either(b, x, 0)
}

// The bit of a stall.
#[tactic(auto, unfolding(crate::specs::Stalls::bit_of))]
pub fn bit_of(s: u8) -> u64
    ensures { result ≡ bit_of s }
{
    if s < 1 || s > 64 { 0 } else { 1u64 << (s - 1) }
}

// A set of stalls has all of 1 to n. No function makes that set for merge, head and this crate: a public one has no requires, a rule of the project,
// and without one n above 63 wants an answer of its own.
pub(crate) fn has_all(x: &Image<'_>, set: u64) -> bool
    ensures { result ≡ eqb set (2 ^ x.now.n - 1) }
{
    set == (1u64 << x.n) - 1
}

// Bits where the order entry of a stall is bad, by the stall's bit, that of the own stall, and the set of heard stalls: nothing is lost by the set, nor gained by the two bits.
#[tactic(auto, using(crate::proofs::OrderMask::differs))]
fn bad_order(order: u64, set: u64, one: u64, mine: u64) -> u64
    ensures { not (eqb result 0)
        ≡ cond (eqb (bit_and set one) 0) (not (eqb order 0))
        (not (eqb (bit_and order set) order) || (not (eqb (bit_and order one) one) || not (eqb (bit_and order mine) mine))) }
{
    if set & one == 0 {
        return order;
    }
    (order & set) ^ ((order | one) | mine)
}

// Check 6, by the set of heard stalls: no mark but of a heard stall to a heard one, and of each of these to itself and to the own stall. The place
// and the bit go on with the loop, as all places do in the check, which does not multiply (firmware/products). An iterator over order entries would be
// no plainer: it has four ghost members, in place of two sums a turn.
pub(crate) fn bad_marks(x: &Image<'_>, set: u64) -> bool
    requires { set ≡ bits x.now.n (heard_at x.now.bytes.now x.now.n x.now.own) }
    ensures { result ≡ bad_marks x.now.bytes.now x.now.n x.now.own }
{
    let image = x.bytes;
    let n = usize::from(x.n);
    let mine = 1u64 << (x.own - 1);
    let width = order_width(n);
    let mut bad = 0u64;
    let mut one = 1u64;
    let mut at = orders_place(image.len(), n);
    for _ in 0..n {
        bad |= bad_order(whole_order(image, n, at), set, one, mine);
        one += one;
        at += width;
    }
    bad != 0
}
