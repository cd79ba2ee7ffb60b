// A packed image unpacked, row by row; and what is handed to the plain calls in its place. The forms of the loops and the parameters: see pack.rt.
ghost use Rattle.std.specs.Prelude.{◌≡◌, ◌+◌, ◌-◌, ◌*◌, ◌≤◌, ◌++◌, length, take, drop, get_or};
ghost use Rattle.image.specs.Layout.{largest, yields_place};
ghost use Rattle.image.specs.Frame.{Sized};
ghost use Rattle.image.specs.Stalls.{each};
ghost use Rattle.image.specs.Encode.{name_bytes};
ghost use Rattle.packed.specs.Form.{packed_image_length, name_of, unpacked_row, unpacked_of};
ghost use Rattle.packed.specs.Bytes.{plain_of};

use crate::copies::copy;
use crate::name_bytes::two_bytes;
use crate::{UNPACKED, bad_packed_count, packed_length_of};
use image::bytes::yields_place;
use image::length_of;

// The names of a row, which starts at a place, into the row that starts at another.
fn unpack_row(packed: &[u8], from: usize, image: &mut [u8], to: usize, n: usize)
    requires { (n ≤ largest) × (from + n ≤ length packed.now) × (to + n * 2 ≤ length image.old) }
    ensures { image.new
        ≡ take to image.old
        ++ each n (λ c. name_bytes (name_of c (get_or packed.now (from + (c - 1)) 0)))
        ++ drop (to + n * 2) image.old }
{
    let mut place = to;
    for c in 0..n {
        let name = two_bytes(c, packed[from + c]);
        image[place] = name.high;
        image[place + 1] = name.low;
        place += 2;
    }
}

// The names of all rows.
fn unpack_rows(packed: &[u8], image: &mut [u8], n: usize)
    requires { Sized image.old n × (length packed.now ≡ packed_image_length n) }
    ensures { image.new
        ≡ take 4 image.old ++ each n (unpacked_row packed.now n) ++ drop (yields_place n) image.old }
{
    let mut from = 4usize;
    let mut to = 4usize;
    for _ in 0..n {
        unpack_row(packed, from, image, to, n);
        from += n;
        to += n + n;
    }
}

// A packed image of n stalls, unpacked.
fn unpack_image(packed: &[u8], image: &mut [u8], n: usize)
    requires { Sized image.old n × (length packed.now ≡ packed_image_length n) }
    ensures { image.new ≡ unpacked_of n packed.now }
{
    copy(image, 0, packed, 0, 4);
    unpack_rows(packed, image, n);
    let yields = yields_place(image.len(), n);
    let rest = image.len() - yields;
    copy(image, yields, packed, packed.len() - rest, rest);
}

// What is handed to the plain calls in the place of a packed image, at the front of a room.
#[tactic(auto, using(crate::proofs::Handed::handings))]
pub(crate) fn unpack_into<'a>(packed: &[u8], room: &'a mut [u8; UNPACKED]) -> &'a mut [u8]
    ensures { result.now ≡ plain_of packed.now }
{
    // Part of the check: firmware/products follows no is_empty.
    if packed.len() == 0 {
        return &mut room[..0];
    }
    let n = packed[0];
    if bad_packed_count(n) {
        return &mut room[..0];
    }
    let m = usize::from(n);
    if packed.len() != packed_length_of(m) {
        room[0] = n;
        return &mut room[..1];
    }
    let image = &mut room[..length_of(m)];
    unpack_image(packed, image, m);
    image
}
