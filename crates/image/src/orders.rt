// Order entries of an image, read and written at their places: but for the lengths of images, only here does the code know how many bytes an entry has.
ghost use Rattle.std.specs.Prelude.{◌≡◌, ◌+◌, ◌*◌, ◌%◌, ◌^◌, ◌<◌, ◌≤◌, length};
ghost use Rattle.std.proofs.lemmas.List.Edits.{sets};
ghost use Rattle.image.specs.Layout.{largest, order_from, order_width, orders_from};
ghost use Rattle.image.specs.Encode.{order_bytes};

use crate::bytes::word_at;

// The bytes of an order entry in an image of n stalls.
#[tactic(auto, unfolding(crate::specs::Layout::order_width))]
pub fn order_width(n: usize) -> usize
    ensures { result ≡ order_width n }
{
    if n <= 8 { 1 } else { 2 }
}

// Where the order entries of an image of n stalls start, counted from its end.
#[tactic(auto, unfolding(crate::specs::Layout::order_width))]
pub fn orders_place(length: usize, n: usize) -> usize
    ensures { result ≡ orders_from length n }
{
    let place = length.saturating_sub(n);
    if order_width(n) == 1 {
        place
    } else {
        place.saturating_sub(n)
    }
}

// The order entry at a place where all its bytes stand.
#[tactic(auto, unfolding(crate::specs::Layout::order_width, crate::specs::Layout::order_from, crate::specs::Layout::number_at))]
pub(crate) fn whole_order(image: &[u8], n: usize, at: usize) -> u64
    requires { at + order_width n ≤ length image.now }
    ensures { (result ≡ order_from image.now n at) × (result < 2 ^ largest) }
{
    if order_width(n) == 1 {
        u64::from(image[at])
    } else {
        u64::from(word_at(image, at))
    }
}

// The order entry at a place as a number; past the end of the image there are zeros.
#[tactic(auto, unfolding(crate::specs::Layout::order_width, crate::specs::Layout::order_from, crate::specs::Layout::number_at))]
pub fn order_at(image: &[u8], n: usize, at: usize) -> u64
    ensures { (result ≡ order_from image.now n at) × (result < 2 ^ largest) }
{
    if image.len() <= at {
        0
    } else if image.len() - at < order_width(n) {
        u64::from(u16::from_be_bytes([image[at], 0]))
    } else {
        whole_order(image, n, at)
    }
}

// An order entry written at a place, as far as it has room there and in its bytes.
#[tactic(auto, using(crate::proofs::PutOrder::puts), unfolding(crate::specs::Layout::order_width))]
pub fn put_order(image: &mut [u8], n: usize, at: usize, order: u16)
    ensures { image.new ≡ sets image.old at (order_bytes n (order % 2 ^ (8 * order_width n))) }
{
    if image.len() <= at {
        return;
    }
    let [high, low] = order.to_be_bytes();
    if order_width(n) == 1 {
        image[at] = low;
        return;
    }
    image[at] = high;
    if at + 1 < image.len() {
        image[at + 1] = low;
    }
}
