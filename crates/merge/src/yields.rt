// The yields that both heads hold after a meeting, by value as the rows are.
ghost use Rattle.std.specs.Prelude.{◌≡◌};
ghost use Rattle.image.specs.Stalls.{each, has};
ghost use Rattle.merge.specs.Body.{padded, body_yield};

use crate::Both;
use crate::pairs::{Side, mixed, pair_at};
use image::ROW;
use image::bytes::yields_place;

// The yields of all stalls, with zeros behind them: for the two that met their current ones; two has the stalls that come from the second.
pub(crate) fn merged_yields(x: &Both<'_>, two: u64) -> [u8; ROW]
    ensures { result ≡ padded x.now.first.n (each x.now.first.n (body_yield x.now.first.bytes.now x.now.second.bytes.now x.now.first.n x.now.first.own x.now.second.own (has two))) }
{
    let n = usize::from(x.first.n);
    let first = x.first.bytes;
    let second = x.second.bytes;
    let a = Side {
        stall: usize::from(x.first.own),
        at: yields_place(first.len(), n),
        own: pair_at(first, 2),
    };
    let b = Side {
        stall: usize::from(x.second.own),
        at: yields_place(second.len(), n),
        own: pair_at(second, 2),
    };
    mixed(x, a, b, two)
}
