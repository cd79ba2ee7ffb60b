// For each stall, how many stalls its head knows to have heard its latest of that stall: the order marks, counted.
ghost use Rattle.std.specs.Prelude.{◌≡◌, ◌≤◌, length};
ghost use Rattle.image.specs.Stalls.{count_stalls, has};
ghost use Rattle.image.specs.Layout.{largest};
ghost use Rattle.head.specs.Settled.{settled_counts};

use image::Image;
use image::marks::bit_of;
use image::orders::{order_at, order_width, orders_place};

// How many stalls of 1 to n a set has.
fn set_size(set: u64, n: u8) -> u32
    requires { n ≤ largest }
    ensures { (result ≡ count_stalls n (has set)) × (result ≤ n) }
{
    (set & (bit_of(n + 1) - 1)).count_ones()
}

// The numbers of a head into a buffer of the right length. The place of the entries goes along: one has one byte or two, which order_at reads there.
pub(crate) fn put_counts(x: &Image<'_>, counts: &mut [u8])
    requires { length counts.old ≡ x.now.n }
    ensures { counts.new ≡ settled_counts x.now.bytes.now x.now.n }
{
    let n = usize::from(x.n);
    let width = order_width(n);
    let mut at = orders_place(x.bytes.len(), n);
    for count in counts.iter_mut() {
        // At most 16: `try_from` would add a branch.
        *count = set_size(order_at(x.bytes, n, at), x.n) as u8;
        at += width;
    }
}
