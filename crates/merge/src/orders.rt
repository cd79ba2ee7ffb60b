// The order marks that both heads hold after a meeting, by value as the rows are. Sets of stalls are numbers.
ghost use Rattle.std.specs.Prelude.{◌≡◌, suc, ◌%◌, ◌<◌};
ghost use Rattle.image.specs.Layout.{largest, order_at};
ghost use Rattle.image.specs.Encode.{table_of};
ghost use Rattle.merge.specs.ByStall.{ByStall};
ghost use Rattle.merge.specs.Views.{Decides};
ghost use Rattle.merge.specs.Orders.{Sorts, from_second, order_of, Ordered};

use crate::stalls::{all_stalls, has_stall, without};
use crate::{Both, Decided, Sets};
use image::STALLS;
use image::marks::{bit_of, pick};
use image::orders::{order_at, order_width, orders_place};

// The stalls by who has them.
fn sorted(x: &Both<'_>, d: Decided) -> Sets
    ensures { Sorts x.now.first.n x.now.first.own x.now.second.own d result }
{
    let pair = bit_of(x.first.own) | bit_of(x.second.own);
    let others = without(all_stalls(&x.first), pair);
    Sets {
        pair,
        first: without(others, d.two),
        second: without(others, d.one),
        alone: others & d.two,
        heard: pair | d.heard,
    }
}

// The stalls whose marks the stall behind r others takes from the second.
fn source(x: Sets, r: usize) -> u64
    requires { r < largest }
    ensures { result ≡ from_second x (suc r) }
{
    if has_stall(x.alone, r) {
        x.second
    } else {
        pick(has_stall(x.second, r), x.alone)
    }
}

// The order marks of the stall behind r others, by those that it has in both images.
fn order_of(x: Sets, r: usize, mine: u64, theirs: u64) -> u64
    requires { r < largest }
    ensures { result ≡ order_of x (suc r) mine theirs }
{
    let first = pick(has_stall(x.first, r), x.first) & mine;
    let second = source(x, r) & theirs;
    pick(has_stall(x.heard, r), x.pair) | (first | second)
}

// The order marks of all stalls after a meeting, by who has them. Entries are read at their places: see marked (known.rt).
fn merged_orders(x: &Both<'_>, sets: Sets) -> [u16; STALLS]
    ensures { ByStall 0 largest x.now.first.n (λ r. order_of sets r (order_at x.now.first.bytes.now x.now.first.n r) (order_at x.now.second.bytes.now x.now.first.n r) % 65536) result }
{
    let n = usize::from(x.first.n);
    let width = order_width(n);
    let mut out = [0u16; STALLS];
    let mut at = orders_place(x.first.bytes.len(), n);
    for (r, order) in out[..n].iter_mut().enumerate() {
        let mine = order_at(x.first.bytes, n, at);
        let theirs = order_at(x.second.bytes, n, at);
        // No From makes a number narrower; what is cut off is 0.
        *order = (order_of(sets, r, mine, theirs) % 65536) as u16;
        at += width;
    }
    out
}

// The order marks after a meeting with these verdicts.
pub(crate) fn orders_after(x: &Both<'_>, d: Decided) -> [u16; STALLS]
    requires { Decides x.now.first.n x.now.first.own (table_of x.now.first.bytes.now x.now.first.n) x.now.second.own (table_of x.now.second.bytes.now x.now.first.n) d }
    ensures { Ordered x.now.first.bytes.now x.now.second.bytes.now x.now.first.n x.now.first.own x.now.second.own result }
{
    merged_orders(x, sorted(x, d))
}
