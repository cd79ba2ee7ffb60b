// The names of an image: check 5. Names are looked at four at a time, in words. Places go on with the loops, by sums: a rule of the project, which
// firmware/products holds, has the check neither divide nor multiply two variables, so no place is made of a row's number; and no loop takes
// chunks_exact, which divides by the length of a chunk. `|` and not `||` where both sides are looked at in any case: nothing branches there.
ghost use Rattle.std.specs.Prelude.{◌≡◌, min, ◌+◌, ◌-◌, ◌*◌, ◌<◌, ◌≤◌, not, ◌&&◌, ◌||◌, eqb, length, get_or};
ghost use Rattle.image.specs.Stalls.{some};
ghost use Rattle.image.specs.Lanes.{lane, pairs};
ghost use Rattle.image.specs.Columns.{Low, columns_from, bad_at, OwnNames};
ghost use Rattle.image.specs.Layout.{label_limit, largest, no_yield, row_place, word};
ghost use Rattle.image.specs.Check.{bad_name, bad_unheard, bad_names};

use crate::bytes::{row_start, word_at, yields_place};
use crate::marks::{has_all, pick};
use crate::words::{EIGHTHS, FOUR_ONES, SEVENS, eight, first_lanes, four_times};
use crate::yields::is_not_milked;
use crate::{Head, Image};

// The eighth bit of the partner bytes of four names; the columns 1 to 4 at these bytes, and what takes columns to those four behind them.
const PARTNER_EIGHTHS: u64 = 0x0080008000800080;

const FIRST_COLUMNS: u64 = 0x0004000300020001;

const FOUR_MORE: u64 = 0x0004000400040004;

// What names of a parlour of n are held to: the word takes the partner bytes of four names to 128 and above where they are over n, and the label
// bytes where they are over the limit. It is computed once in a check: where each four names did it, the compiler multiplied by a long constant.
#[derive(Clone, Copy, Debug, PartialEq, Eq)]
struct Limits {
    n: usize,
    word: u64,
    ghost small: { n ≤ largest },
    ghost word_is: { word ≡ pairs (λ j. 127 - n) (λ j. 127 - label_limit n) },
}

#[tactic(auto, unfolding(crate::specs::Layout::label_limit, crate::specs::Lanes::lanes, crate::specs::Lanes::pairs))]
fn limits_of(x: &Image<'_>) -> Limits
    ensures { result.n ≡ x.now.n }
{
    let n = usize::from(x.n);
    // A cast, since std has no From of a usize. Tried with u16::from_be_bytes of the two: it proves, and the compiler then multiplied by a long constant,
    // which firmware/products refuses.
    let word = SEVENS - four_times((Head::label_limit(x.n) * 256 + n) as u64);
    Limits { n, word }
}

// Bits where some of four names in a word is bad by itself, a partner byte and a label byte each, with the columns of the names at the partner
// bytes. A byte is over its limit, a partner is its own column, or a label has no partner: sums and differences of bytes below 128 carry into no
// other.
#[tactic(auto, using(crate::proofs::NameLanes::four_names))]
fn bad_four(w: u64, limits: Limits, columns: u64) -> u64
    requires { Low columns }
    ensures { not (eqb result 0)
        ≡ some 4 (λ j. bad_name limits.n (label_limit limits.n) (lane 8 columns (j * 2 - 2)) (lane 8 w (j * 2 - 2)) (lane 8 w (j * 2 - 1))) }
{
    let low = w & SEVENS;
    let over = w | (low + limits.word);
    let own = EIGHTHS - (low ^ columns);
    let bare = ((low + SEVENS) >> 8) & (EIGHTHS - low);
    (over & EIGHTHS) | ((own | bare) & PARTNER_EIGHTHS)
}

// Bits where some of the eight names behind column c, of the row that starts at a place, is bad by itself; behind the row stand at least the
// yields and the marks. Always copied in: called for each row, it made the check of eight heads 1.4 times as slow.
#[inline(always)]
fn bad_in_row(image: &[u8], limits: Limits, at: usize, c: usize, columns: u64) -> u64
    requires { (2 ≤ limits.n) × (c < limits.n) × (at + limits.n * 5 ≤ length image.now) × (columns ≡ columns_from c) }
    ensures { not (eqb result 0)
        ≡ some (min (limits.n - c) 8)
        (λ j. bad_name limits.n (label_limit limits.n) (c + j) (get_or image.now (at + (c + j - 1) * 2) 0) (get_or image.now (at + (c + j - 1) * 2 + 1) 0)) }
{
    let place = at + c + c;
    let left = limits.n - c;
    if left <= 4 {
        return bad_four(eight(image, place) & first_lanes(left), limits, columns);
    }
    let first = bad_four(eight(image, place), limits, columns);
    bad_four(
        eight(image, place + 8) & first_lanes(left - 4),
        limits,
        columns + FOUR_MORE,
    ) | first
}

// The row that starts at a place has a name. By an index, times a written constant: see the head of the file.
fn some_in_row(image: &[u8], n: usize, at: usize) -> bool
    requires { at + n * 2 ≤ length image.now }
    ensures { result ≡ some n (λ c. not (eqb (get_or image.now (at + (c - 1) * 2) 0) 0)) }
{
    let mut found = false;
    for c in 0..n {
        found |= image[at + 2 * c] != 0;
    }
    found
}

// The two bytes at a place as a word, the first the lowest: only compared, so in the order in which a load has them.
fn two_at(image: &[u8], at: usize) -> u64
    requires { at + 1 < length image.now }
    ensures { (result ≡ get_or image.now at 0 + get_or image.now (at + 1) 0 * 256) × (get_or image.now at 0 < 256) }
{
    u64::from(u16::from_le_bytes([image[at], image[at + 1]]))
}

// What the own row says: bits where some row has another name of its stall, and the stalls that it has a name for. No Option of the stalls: all
// rows are looked at before anything branches on the bits.
#[derive(Clone, Copy, Debug, PartialEq, Eq)]
pub(crate) struct Own {
    pub bad: u64,
    pub set: u64,
}

// The own row against the name of each row's own stall.
pub(crate) fn own_names(x: &Image<'_>) -> Own
    ensures { OwnNames x.now.bytes.now x.now.n x.now.own result.bad result.set }
{
    let image = x.bytes;
    let n = usize::from(x.n);
    let mut bad = 0u64;
    let mut set = 0u64;
    let mut one = 1u64;
    let mut here = 4usize;
    let mut there = row_start(x);
    for _ in 0..n {
        bad |= two_at(image, here) ^ two_at(image, there);
        set += pick(image[there] != 0, one);
        one += one;
        here += n + n + 2;
        there += 2;
    }
    Own { bad, set }
}

// Bits where some row has, in the eight columns behind column C, a name that is bad by itself. That it stops at a bad one keeps the compiler from
// taking two rows at once, for which it would multiply.
fn bad_columns<const C: usize>(x: &Image<'_>, limits: Limits) -> u64
    requires { (C < x.now.n) × (limits.n ≡ x.now.n) }
    ensures { not (eqb result 0) ≡ some x.now.n (λ r. some (min (x.now.n - C) 8) (λ j. bad_at x.now.bytes.now x.now.n r (C + j))) }
{
    let n = usize::from(x.n);
    // A cast: std has no From of a usize.
    let columns = FIRST_COLUMNS + FOUR_ONES * (C as u64);
    let mut bad = 0u64;
    let mut at = 4usize;
    for _ in 0..n {
        bad = bad_in_row(x.bytes, limits, at, C, columns);
        if bad != 0 {
            break;
        }
        at += n + n;
    }
    bad
}

// Bits where some row has a name that is bad by itself.
fn bad_rows(x: &Image<'_>) -> u64
    ensures { not (eqb result 0) ≡ some x.now.n (λ r. some x.now.n (bad_at x.now.bytes.now x.now.n r)) }
{
    let limits = limits_of(x);
    let first = bad_columns::<0>(x, limits);
    if x.n <= 8 {
        return first;
    }
    bad_columns::<8>(x, limits) | first
}

// No partner stands at a place, and a row has a name, or a yield is one.
fn bad_unheard(image: &[u8], n: usize, there: usize, at: usize, yields: usize) -> bool
    requires { (there < length image.now) × (at + n * 2 ≤ length image.now) × (yields + 1 < length image.now) }
    ensures { result
        ≡ (eqb (get_or image.now there 0) 0
        && (some n (λ c. not (eqb (get_or image.now (at + (c - 1) * 2) 0) 0)) || not (eqb (word image.now yields) no_yield))) }
{
    if image[there] != 0 {
        return false;
    }
    some_in_row(image, n, at) | !is_not_milked(usize::from(word_at(image, yields)))
}

// Some row of a stall never heard is bad.
fn bad_unheards(x: &Image<'_>) -> bool
    ensures { result ≡ some x.now.n (bad_unheard x.now.bytes.now x.now.n x.now.own) }
{
    let image = x.bytes;
    let n = usize::from(x.n);
    let mut bad = false;
    let mut at = 4usize;
    let mut yields = yields_place(image.len(), n);
    let mut there = row_start(x);
    for _ in 0..n {
        bad |= bad_unheard(image, n, there, at, yields);
        at += n + n;
        yields += 2;
        there += 2;
    }
    bad
}

// Check 5, by what the own row says.
pub(crate) fn bad_names(x: &Image<'_>, names: Own) -> bool
    requires { OwnNames x.now.bytes.now x.now.n x.now.own names.bad names.set }
    ensures { result ≡ bad_names x.now.bytes.now x.now.n x.now.own }
{
    let bad = (bad_rows(x) | names.bad) != 0;
    if has_all(x, names.set) {
        return bad;
    }
    bad | bad_unheards(x)
}
