// Rows, yields and order entries written into an image, lent for writing with its number of stalls beside it: a view that holds a `&mut` is no plainer, since each function that takes one
// must promise that it lends the same image still (`x.new.bytes.ghost_name ≡ x.old.bytes.ghost_name`).
// Rows, yields and entries come by value, in arrays with room for the largest parlour: the scope document names the form of rows, and firmware has no heap.
ghost use Rattle.std.specs.Prelude.{◌≡◌, ℕ, ◌+◌, ◌-◌, ◌*◌, ◌^◌, ◌<◌, ◌≤◌, ◌++◌, length, take, drop, get_or};
ghost use Rattle.image.specs.Layout.{orders_place, yields_place};
ghost use Rattle.image.specs.Frame.{Sized};
ghost use Rattle.image.specs.Stalls.{each};
ghost use Rattle.merge.specs.Body.{order_in, row_in};

use image::bytes::yields_place;
use image::orders::{order_width, orders_place, put_order};
use image::{ROW, STALLS};

// What another image of the same length holds behind its first four bytes. By a loop: `copy_from_slice` of two runs of which the compiler does not know
// that they lie apart calls memmove, and firmware links memcpy and memset alone.
pub(crate) fn copy_body(image: &mut [u8], from: &[u8])
    requires { (4 ≤ length image.old) × (length image.old ≡ length from.now) }
    ensures { image.new ≡ take 4 image.old ++ drop 4 from.now }
{
    let rest = image.len() - 4;
    for i in 0..rest {
        image[4 + i] = from[4 + i];
    }
}

// Bytes at a place.
pub(crate) fn write_at(image: &mut [u8], at: usize, bytes: &[u8])
    requires { at + length bytes.now ≤ length image.old }
    ensures { image.new ≡ take at image.old ++ bytes.now ++ drop (at + length bytes.now) image.old }
{
    image[at..at + bytes.len()].copy_from_slice(bytes);
}

// The rows of n stalls. Not by `chunks_exact_mut`, for the reason at `mixed` (pairs.rt).
pub(crate) fn write_rows(image: &mut [u8], n: usize, rows: [[u8; ROW]; STALLS])
    requires { Sized image.old n }
    ensures { image.new
        ≡ take 4 image.old ++ each n (row_in rows n) ++ drop (yields_place n) image.old }
{
    let mut at = 4usize;
    for row in &rows[..n] {
        write_at(image, at, &row[..n + n]);
        at += n + n;
    }
}

// The yields of n stalls.
pub(crate) fn write_yields(image: &mut [u8], n: usize, yields: [u8; ROW])
    requires { Sized image.old n }
    ensures { image.new
        ≡ take (yields_place n) image.old ++ take (n * 2) yields ++ drop (orders_place n) image.old }
{
    let at = yields_place(image.len(), n);
    write_at(image, at, &yields[..n + n]);
}

// The order entries of n stalls, at their places: put_order writes one there, as wide as n says.
pub(crate) fn write_orders(image: &mut [u8], n: usize, orders: [u16; STALLS])
    requires { Sized image.old n × ((r : ℕ) → 1 ≤ r → r ≤ n → get_or orders (r - 1) 0 < 2 ^ n) }
    ensures { image.new ≡ take (orders_place n) image.old ++ each n (order_in orders n) }
{
    let width = order_width(n);
    let mut at = orders_place(image.len(), n);
    for order in &orders[..n] {
        put_order(image, n, at, *order);
        at += width;
    }
}

// The rows, yields and order entries of n stalls.
pub(crate) fn write_body(
    image: &mut [u8],
    n: usize,
    rows: [[u8; ROW]; STALLS],
    yields: [u8; ROW],
    orders: [u16; STALLS],
)
    requires { Sized image.old n × ((r : ℕ) → 1 ≤ r → r ≤ n → get_or orders (r - 1) 0 < 2 ^ n) }
    ensures { image.new ≡ take 4 image.old ++ each n (row_in rows n) ++ take (n * 2) yields ++ each n (order_in orders n) }
{
    write_rows(image, n, rows);
    write_yields(image, n, yields);
    write_orders(image, n, orders);
}
