// Bytes copied from one run into another.
ghost use Rattle.std.specs.Prelude.{◌≡◌, ◌+◌, ◌≤◌, length, drop};
ghost use Rattle.std.proofs.Math.Seq.{paste};

// What stands in a run from a place on, to a place of another. A loop: with `copy_from_slice` the check, the heard list and the numbers of
// packed tables took 1.06 to 1.19 of the time before at two to six heads (0.8 at eight), with the loop 0.92 to 1.05.
// By an index: with `iter_mut().zip(..)` the check leaves the ensures open, as what was written through the items handed out so far has no name in the
// loop's invariant; and the packed check comes here, in which firmware/products follows no iterator.
pub(crate) fn copy(to: &mut [u8], at: usize, from: &[u8], start: usize, count: usize)
    requires { (at + count ≤ length to.old) × (start + count ≤ length from.now) }
    ensures { to.new ≡ paste to.old at (drop start from.now) count }
{
    for i in 0..count {
        to[at + i] = from[start + i];
    }
}
