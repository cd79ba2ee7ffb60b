// Sets of stalls, which are numbers: all stalls, what one set has and another has not, and whether a set has a stall.
ghost use Rattle.std.specs.Prelude.{◌≡◌, suc, ◌<◌, true};
ghost use Rattle.image.specs.Layout.{largest};
ghost use Rattle.image.specs.Stalls.{bits, has, without};

use image::Image;

// `image` and `head` have this number too, each for one test or count: one subtraction, and in common it would be a public function more.
pub(crate) fn all_stalls(x: &Image<'_>) -> u64
    ensures { result ≡ bits x.now.n (λ s. true) }
{
    (1u64 << x.n) - 1
}

pub(crate) fn without(a: u64, b: u64) -> u64
    ensures { result ≡ without a b }
{
    a - (a & b)
}

// A set has the stall behind c others. The bound is that of the shift; `source` and `order_of` (orders.rt) hand it on. Each caller has it from its own loop, so a type for c would be made once a turn, and is no plainer.
#[tactic(auto, unfolding(image::specs::Stalls::has))]
pub(crate) fn has_stall(set: u64, c: usize) -> bool
    requires { c < largest }
    ensures { result ≡ has set (suc c) }
{
    (set >> c) % 2 == 1
}
