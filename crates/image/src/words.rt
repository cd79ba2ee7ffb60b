// Words of 64 bits, in which the check looks at four names or four yields at a time.
ghost use Rattle.std.specs.Prelude.{◌≡◌, min, ◌+◌, ◌-◌, ◌*◌, ◌^◌, ◌<◌, ◌≤◌, length, get_or, ◌∷◌, []};
ghost use Rattle.image.specs.Lanes.{lanes};
ghost use Rattle.image.specs.Layout.{word};

// The seven lower bits of each byte of a word, and the eighth.
pub(crate) const SEVENS: u64 = 0x7f7f7f7f7f7f7f7f;

pub(crate) const EIGHTHS: u64 = 0x8080808080808080;

// The fifteen lower bits of each two bytes, and the sixteenth; and a one in each.
pub(crate) const FIFTEENS: u64 = 0x7fff7fff7fff7fff;

pub(crate) const SIXTEENTHS: u64 = 0x8000800080008000;

pub(crate) const FOUR_ONES: u64 = 0x0001000100010001;

// The eight bytes from a place on, listed: see word_at in bytes.rt.
fn eight_bytes(image: &[u8], at: usize) -> [u8; 8]
    requires { at + 8 ≤ length image.now }
    ensures { result
        ≡ get_or image.now at 0
        ∷ get_or image.now (at + 1) 0
        ∷ get_or image.now (at + 2) 0
        ∷ get_or image.now (at + 3) 0
        ∷ get_or image.now (at + 4) 0
        ∷ get_or image.now (at + 5) 0
        ∷ get_or image.now (at + 6) 0
        ∷ get_or image.now (at + 7) 0
        ∷ [] }
{
    [
        image[at],
        image[at + 1],
        image[at + 2],
        image[at + 3],
        image[at + 4],
        image[at + 5],
        image[at + 6],
        image[at + 7],
    ]
}

// The eight bytes from a place on as a word, the first the lowest.
#[tactic(auto, unfolding(crate::specs::Lanes::lanes))]
pub(crate) fn eight(image: &[u8], at: usize) -> u64
    requires { at + 8 ≤ length image.now }
    ensures { result ≡ lanes 8 8 (λ i. get_or image.now (at + i) 0) }
{
    u64::from_le_bytes(eight_bytes(image, at))
}

// The four numbers of two bytes, high byte first, from a place on, the last the lowest.
#[tactic(auto, unfolding(crate::specs::Lanes::lanes))]
pub(crate) fn four_numbers(image: &[u8], at: usize) -> u64
    requires { at + 8 ≤ length image.now }
    ensures { result ≡ lanes 16 4 (λ i. word image.now (at + 6 - i * 2)) }
{
    u64::from_be_bytes(eight_bytes(image, at))
}

// All bits of the first so many lanes of four.
pub(crate) fn first_lanes(count: usize) -> u64
    ensures { result ≡ 2 ^ (16 * min count 4) - 1 }
{
    if count < 4 {
        (1u64 << (16 * count)) - 1
    } else {
        u64::MAX
    }
}

// A number in each of four lanes.
#[tactic(auto, using(crate::proofs::Lanes::twice), unfolding(crate::specs::Lanes::lanes))]
pub(crate) fn four_times(x: u64) -> u64
    requires { x < 65536 }
    ensures { result ≡ lanes 16 4 (λ i. x) }
{
    let two = x | (x << 16);
    two | (two << 32)
}
