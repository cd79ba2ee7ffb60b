// The label of a meeting: the lowest that no name of the pair has in any row of either image. Sets of labels are numbers.
ghost use Rattle.std.specs.Prelude.{◌≡◌, ◌≤◌, ◌||◌};
ghost use Rattle.image.specs.Stalls.{some};
ghost use Rattle.image.specs.Layout.{name_from};
ghost use Rattle.image.specs.Encode.{table_of};
ghost use Rattle.merge.specs.Label.{is_meeting, row_has, lowest_from, new_label};
ghost use Rattle.merge.specs.LabelSet.{label_set, has_label, name_has, Column};

use crate::Both;
use image::Image;
use image::marks::{bit_of, pick};

// The lowest label that a set has not; 64 where it has all: no Option, as lowest_from (specs) is this number.
fn lowest_free(set: u64) -> u32
    ensures { result ≡ lowest_from 64 0 (has_label set) }
{
    (!set).trailing_zeros()
}

// The label of a name as a set, if the name is the meeting with this stall.
fn label_of(partner: u8, label: u8, stall: u8) -> u64
    requires { 1 ≤ stall }
    ensures { result ≡ label_set (λ k. is_meeting stall k (name_from partner label)) }
{
    if 63 < label {
        0
    } else {
        pick(partner == stall, bit_of(label + 1))
    }
}

// The labels of the names of the pair p, q in the row that starts at a place. p and q are two loose stalls, here and in `used_labels`: a struct of them for two functions would have the four bounds of the second as fields.
fn row_labels(image: &[u8], row: usize, p: u8, q: u8) -> u64
    requires { Column image.now row p × Column image.now row q }
    ensures { result ≡ label_set (λ k. name_has image.now row p q k || name_has image.now row q p k) }
{
    let left = row + (usize::from(p) - 1) * 2;
    let right = row + (usize::from(q) - 1) * 2;
    label_of(image[left], image[left + 1], q) | label_of(image[right], image[right + 1], p)
}

// The labels of the names of the pair p, q in an image. The rows are found by their places, here, in rows.rt and in write.rt, since specs/ say names by their places in the image (name_has, body_row), and a chunk of it has none. That they go along with the loop: see marked (known.rt).
fn used_labels(x: &Image<'_>, p: u8, q: u8) -> u64
    requires { (1 ≤ p) × (p ≤ x.now.n) × (1 ≤ q) × (q ≤ x.now.n) }
    ensures { result ≡ label_set (λ k. some x.now.n (row_has p q (table_of x.now.bytes.now x.now.n) k)) }
{
    let n = usize::from(x.n);
    let mut set = 0u64;
    let mut row = 4usize;
    for _ in 0..n {
        set |= row_labels(x.bytes, row, p, q);
        row += n + n;
    }
    set
}

// The label of a meeting, by both images.
pub(crate) fn new_label(x: &Both<'_>) -> u8
    ensures { result ≡ new_label x.now.first.n x.now.first.own (table_of x.now.first.bytes.now x.now.first.n) x.now.second.own (table_of x.now.second.bytes.now x.now.first.n) }
{
    let p = x.first.own;
    let q = x.second.own;
    // No From makes a number narrower, and this one is at most 62.
    lowest_free(used_labels(&x.first, p, q) | used_labels(&x.second, p, q)) as u8
}
