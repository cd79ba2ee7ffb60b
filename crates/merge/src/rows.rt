// The rows that both heads hold after a meeting, as arrays of name bytes in an array, by value: the scope document names the form. Each has room for the largest parlour, zeros behind its names.
ghost use Rattle.std.specs.Prelude.{◌≡◌, ℕ, ◌+◌, ◌-◌, ◌*◌, ◌≤◌, ◌<◌, cond, [], length, take, drop, get_or};
ghost use Rattle.image.specs.Stalls.{each, has};
ghost use Rattle.merge.specs.Body.{padded, latest_pair, body_row};

use crate::Both;
use crate::pairs::{Pair, Side, mixed};
use crate::stalls::has_stall;
use image::bytes::row_place;
use image::{Image, ROW, STALLS};

// The bytes of n names from a place on.
pub(crate) fn row_of(x: &Image<'_>, at: usize) -> [u8; ROW]
    requires { at + x.now.n * 2 ≤ length x.now.bytes.now }
    ensures { result ≡ padded x.now.n (take (x.now.n * 2) (drop at x.now.bytes.now)) }
{
    let n = usize::from(x.n);
    let mut row = [0u8; ROW];
    row[..n + n].copy_from_slice(&x.bytes[at..at + n + n]);
    row
}

// The new list of latests, after a meeting with label k; two has the stalls that come from the second.
pub(crate) fn latest_row(x: &Both<'_>, k: u8, two: u64) -> [u8; ROW]
    ensures { result ≡ padded x.now.first.n (each x.now.first.n (latest_pair x.now.first.bytes.now x.now.second.bytes.now x.now.first.n x.now.first.own x.now.second.own k (has two))) }
{
    let n = x.first.n;
    let p = x.first.own;
    let q = x.second.own;
    let a = Side {
        stall: usize::from(p),
        at: row_place(n, p),
        own: Pair { high: q, low: k },
    };
    let b = Side {
        stall: usize::from(q),
        at: row_place(n, q),
        own: Pair { high: p, low: k },
    };
    mixed(x, a, b, two)
}

// The row of a stall, which starts at a place: the new list for one of the two that met.
fn row_after(x: &Both<'_>, at: usize, met: bool, theirs: bool, latest: [u8; ROW]) -> [u8; ROW]
    requires { (at + x.now.first.n * 2 ≤ length x.now.first.bytes.now) × (at + x.now.first.n * 2 ≤ length x.now.second.bytes.now) }
    ensures { result
        ≡ cond met latest (padded x.now.first.n (take (x.now.first.n * 2) (drop at (cond theirs x.now.second.bytes.now x.now.first.bytes.now)))) }
{
    if met {
        latest
    } else if theirs {
        row_of(&x.second, at)
    } else {
        row_of(&x.first, at)
    }
}

// The rows of all stalls after a meeting with label k; two has the stalls that come from the second. Rows are found by their places: see used_labels (label.rt).
pub(crate) fn merged_rows(x: &Both<'_>, k: u8, two: u64) -> [[u8; ROW]; STALLS]
    ensures { (r : ℕ) → 1 ≤ r → r ≤ x.now.first.n
        → get_or result (r - 1) [] ≡ padded x.now.first.n (body_row x.now.first.bytes.now x.now.second.bytes.now x.now.first.n x.now.first.own x.now.second.own k (has two) r) }
{
    let n = usize::from(x.first.n);
    let p = usize::from(x.first.own);
    let q = usize::from(x.second.own);
    let latest = latest_row(x, k, two);
    let mut rows = [[0u8; ROW]; STALLS];
    let mut at = 4usize;
    for (c, row) in rows[..n].iter_mut().enumerate() {
        let met = (c + 1 == p) | (c + 1 == q);
        *row = row_after(x, at, met, has_stall(two, c), latest);
        at += n + n;
    }
    rows
}
