// Rows of pairs of both heads: two bytes a stall, from the head that the stall comes from.
ghost use Rattle.std.specs.Prelude.{◌≡◌, ◌+◌, ◌*◌, ◌≤◌, ◌<◌, cond, eqb, length};
ghost use Rattle.image.specs.Stalls.{each, has};
ghost use Rattle.merge.specs.Body.{pair_at, pair_bytes, padded, mixed_pair};

use crate::Both;
use crate::stalls::has_stall;
use image::ROW;

// Two bytes of an image: a name, or a yield. No `Meet`, which a yield is not; and no `[u8; 2]`, since `packed` and `pair_bytes` (specs) take its two bytes by their names.
#[derive(Clone, Copy, Debug, PartialEq, Eq)]
pub struct Pair {
    // The partner of a name, or the high byte of a yield.
    pub high: u8,
    // The label of a name, or the low byte of a yield.
    pub low: u8,
}

// What one head brings to a row of pairs: its stall, the place in its image where such a row starts, and the pair of its own stall.
#[derive(Clone, Copy, Debug, PartialEq, Eq)]
pub struct Side {
    pub stall: usize,
    pub at: usize,
    pub own: Pair,
}

// The pair at a place.
pub(crate) fn pair_at(image: &[u8], at: usize) -> Pair
    requires { at + 1 < length image.now }
    ensures { pair_bytes result ≡ pair_at image.now at }
{
    Pair {
        high: image[at],
        low: image[at + 1],
    }
}

// The one pair or the other. image has this for itself and any type: in common it would be a public function more, and here the contract is over the bytes. Both are read before, so that no branch depends on the test.
fn either(t: bool, x: Pair, y: Pair) -> Pair
    ensures { pair_bytes result ≡ cond t (pair_bytes x) (pair_bytes y) }
{
    if t { x } else { y }
}

// The pair of stall c, which stands d bytes behind the start of the row.
fn chosen(x: &Both<'_>, a: Side, b: Side, c: usize, d: usize, theirs: bool) -> Pair
    requires { (a.at + d + 1 < length x.now.first.bytes.now) × (b.at + d + 1 < length x.now.second.bytes.now) }
    ensures { pair_bytes result
        ≡ cond (eqb c a.stall) (pair_bytes a.own)
        (cond (eqb c b.stall) (pair_bytes b.own)
        (cond theirs (pair_at x.now.second.bytes.now (b.at + d)) (pair_at x.now.first.bytes.now (a.at + d)))) }
{
    let mine = pair_at(x.first.bytes, a.at + d);
    let other = pair_at(x.second.bytes, b.at + d);
    let taken = either(theirs, other, mine);
    either(c == a.stall, a.own, either(c == b.stall, b.own, taken))
}

// The pairs of n stalls, those of a set from the second head. Written at their places: by `chunks_exact_mut` (tried) the invariant cannot name the row while it is lent, and what stands in it afterwards stayed open.
pub(crate) fn mixed(x: &Both<'_>, a: Side, b: Side, two: u64) -> [u8; ROW]
    requires { (a.at + x.now.first.n * 2 ≤ length x.now.first.bytes.now) × (b.at + x.now.first.n * 2 ≤ length x.now.second.bytes.now) }
    ensures { result ≡ padded x.now.first.n (each x.now.first.n (mixed_pair x.now.first.bytes.now a x.now.second.bytes.now b (has two))) }
{
    let mut row = [0u8; ROW];
    for c in 0..usize::from(x.first.n) {
        let pair = chosen(x, a, b, c + 1, c + c, has_stall(two, c));
        row[c + c] = pair.high;
        row[c + c + 1] = pair.low;
    }
    row
}
