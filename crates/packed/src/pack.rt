// An image packed, row by row. These functions and those of `unpack` go in opposite directions, over names of two bytes and of one: a common
// one would need a trait with a method for each line, which is no plainer.
// Image, packed image and n stay three parameters in these functions: one of the runs is lent `&mut` in each, and a struct that holds a `&mut` needs a
// clause more on each method; one that holds the other would say half of what they require, as both lengths go by the same n.
// Columns are counted, and rows have places that go along: what is written through the items that `iter_mut` hands out in a zip or as chunks has no
// name in the loop's invariant (see `copy`), and unpacking is part of the check, which divides by no n as `chunks_exact(n)` does.
ghost use Rattle.std.specs.Prelude.{◌≡◌, ◌+◌, ◌-◌, ◌*◌, ◌%◌, ◌≤◌, [], ◌∷◌, ◌++◌, length, take, drop, get_or};
ghost use Rattle.image.specs.Layout.{largest, name_from};
ghost use Rattle.image.specs.Frame.{Sized};
ghost use Rattle.image.specs.Stalls.{each};
ghost use Rattle.packed.specs.Form.{name_byte, packed_image_length, packed_yields_place};
ghost use Rattle.packed.specs.Bytes.{packed_row, packed_of};

use crate::copies::copy;
use crate::name_bytes::one_byte;
use image::bytes::yields_place;

// The names of the row that starts at a place.
fn pack_row(image: &[u8], from: usize, packed: &mut [u8], to: usize, n: usize)
    requires { (n ≤ largest) × (from + n * 2 ≤ length image.now) × (to + n ≤ length packed.old) }
    ensures { packed.new
        ≡ take to packed.old
        ++ each n (λ c. name_byte c (name_from (get_or image.now (from + (c - 1) * 2) 0) (get_or image.now (from + (c - 1) * 2 + 1) 0)) % 256 ∷ [])
        ++ drop (to + n) packed.old }
{
    let mut place = from;
    for c in 0..n {
        packed[to + c] = one_byte(c, image[place], image[place + 1]);
        place += 2;
    }
}

// The names of all rows.
fn pack_rows(image: &[u8], packed: &mut [u8], n: usize)
    requires { Sized image.now n × (length packed.old ≡ packed_image_length n) }
    ensures { packed.new
        ≡ take 4 packed.old ++ each n (packed_row image.now n) ++ drop (packed_yields_place n) packed.old }
{
    let mut from = 4usize;
    let mut to = 4usize;
    for _ in 0..n {
        pack_row(image, from, packed, to, n);
        from += n + n;
        to += n;
    }
}

// An image of n stalls, packed.
pub(crate) fn pack_image(image: &[u8], packed: &mut [u8], n: usize)
    requires { Sized image.now n × (length packed.old ≡ packed_image_length n) }
    ensures { packed.new ≡ packed_of n image.now }
{
    copy(packed, 0, image, 0, 4);
    pack_rows(image, packed, n);
    let yields = yields_place(image.len(), n);
    let rest = image.len() - yields;
    copy(packed, packed.len() - rest, image, yields, rest);
}

// Both images of a parlour, packed.
pub(crate) fn pack_both(one: &[u8], first: &mut [u8], two: &[u8], second: &mut [u8])
    requires sized { Sized one.now (get_or one.now 0 0) × Sized two.now (get_or one.now 0 0) }
    requires first_len { (length first.old ≡ packed_image_length (get_or one.now 0 0)) × (length second.old ≡ packed_image_length (get_or one.now 0 0)) }
    ensures { (first.new ≡ packed_of (get_or one.now 0 0) one.now)
        × (second.new ≡ packed_of (get_or one.now 0 0) two.now) }
{
    let n = usize::from(one[0]);
    pack_image(one, first, n);
    pack_image(two, second, n);
}
