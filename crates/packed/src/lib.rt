// The calls of a head on packed tables, as C firmware links them: one byte a name, 92 bytes for 8 stalls.
#![tactic(auto)]

ghost use Rattle.std.specs.Prelude.{◌≡◌, not};
ghost use Rattle.image.specs.Check.{number_of};
ghost use Rattle.merge.specs.Call.{MeetingOutcome};
ghost use Rattle.head.specs.Calls.{Outcome};
ghost use Rattle.head.specs.Heard.{HeardOutcome};
ghost use Rattle.head.specs.Settled.{Settled};
ghost use Rattle.packed.specs.Form.{is_packed_count, packed_length};
ghost use Rattle.packed.specs.Check.{packed_checked, packable_checked};
ghost use Rattle.packed.specs.Calls.{pack_call, unpack_call, packed_fresh_call, packed_milking_call, packed_heard_call, packed_settled_call, packed_meeting_call};

use crate::pack::{pack_both, pack_image};
use crate::unpack::unpack_into;
use head::form::{self, Form};
use image::{Checked, Head, Refusal};

mod copies;
mod name_bytes;
mod pack;
mod unpack;

// The most heads of a parlour whose tables can be packed, and the bytes of their plain image. A constant is cast: std has no From that is computed
// before the program runs.
const PACKED_LARGEST: u8 = 8;

const PACKED_STALLS: usize = PACKED_LARGEST as usize;

const UNPACKED: usize = 4 + 2 * PACKED_STALLS * PACKED_STALLS + 3 * PACKED_STALLS;

// Lengths of packed images by the number of stalls: a table, since docs/DECISIONS.md has the checks read lengths and not multiply.
const PACKED_LENGTHS: [usize; PACKED_STALLS + 1] = [0, 0, 14, 22, 32, 44, 58, 74, 92];

// This and the length stand beside the form's, which call them, and beside those of image, from which each differs in a constant or a table: one
// comparison and one look have fewer lines than a common function would have parameters, and docs/ name the two of a length.
// n is not that of a parlour whose tables can be packed.
pub fn bad_packed_count(n: u8) -> bool
    ensures { result ≡ not (is_packed_count n) }
{
    !((2 <= n) & (n <= PACKED_LARGEST))
}

// The length of a packed image of n stalls, 0 where n is not 2 to 8: no Option, as `packed_length` in specs/ is a number, and the callers compare it.
#[tactic(auto, using(crate::proofs::PackedLengths::rule))]
pub fn packed_length_of(n: usize) -> usize
    ensures { result ≡ packed_length n }
{
    if n <= PACKED_STALLS {
        PACKED_LENGTHS[n]
    } else {
        0
    }
}

// Stored with one byte a name.
#[derive(Clone, Copy, Debug, PartialEq, Eq)]
pub struct Packed;

impl Form for Packed {
    ghost use Rattle.image.specs.Encode.{nothing};
    ghost use Rattle.packed.specs.Bytes.{plain_of};
    ghost use Rattle.packed.specs.Form.{packed_image};

    ghost plain = { plain_of };

    ghost is_count = { is_packed_count };

    ghost length_of = { packed_length };

    ghost fresh = { λ n stall. packed_image n stall nothing };

    // On the stack: no heap.
    type Room = [u8; UNPACKED];

    fn room() -> [u8; UNPACKED] {
        [0u8; UNPACKED]
    }

    fn plain<'a>(packed: &'a [u8], room: &'a mut [u8; UNPACKED]) -> &'a [u8] {
        unpack_into(packed, room)
    }

    #[tactic(auto, using(crate::proofs::Checks::plains))]
    fn check(packed: &[u8]) -> Checked {
        check(packed)
    }

    fn is_count(n: u8) -> bool {
        !bad_packed_count(n)
    }

    fn length_of(n: usize) -> usize {
        packed_length_of(n)
    }

    fn write_fresh(packed: &mut [u8], n: u8, stall: u8) {
        let m = usize::from(n);
        if bad_packed_count(n) || packed.len() != packed_length_of(m) {
            return;
        }
        let mut room = Packed::room();
        let image = &mut room[..image::length_of(m)];
        Head::fresh(n, stall).write(image);
        pack_image(image, packed, m);
    }
}

// The check of a packed image: the first number that applies.
#[tactic(auto, using(crate::proofs::Checks::plains))]
pub fn check(packed: &[u8]) -> Checked
    ensures { result ≡ packed_checked packed.now }
{
    let mut room = Packed::room();
    image::check(Packed::plain(packed, &mut room))
}

// The check of an image that is to be packed: the first number that applies.
#[tactic(auto, unfolding(crate::specs::Check::packable_checked, crate::specs::Check::bad_packed_count))]
fn packable(image: &[u8]) -> Checked
    ensures { result ≡ packable_checked image.now }
{
    if image.is_empty() || bad_packed_count(image[0]) {
        return Checked::Refused(Refusal::Count.number());
    }
    image::check(image)
}

// An image packed into a buffer.
#[tactic(auto, unfolding(crate::specs::Calls::into))]
#[unsafe(no_mangle)]
pub extern "C" fn wilbryn_pack(image: &[u8], packed: &mut [u8]) -> u32
    ensures { ◌≡◌ {A = Outcome} (record { answer = result; image = packed.new }) (pack_call image.now packed.old) }
{
    let c = packable(image);
    let Checked::Good(h) = c else {
        return image::number_of(c);
    };
    let n = usize::from(h.n);
    if packed.len() != packed_length_of(n) {
        return Refusal::Buffer.number();
    }
    pack_image(image, packed, n);
    0
}

// A packed image unpacked into a buffer.
#[tactic(auto, using(crate::proofs::Packing::unpacks))]
#[unsafe(no_mangle)]
pub extern "C" fn wilbryn_unpack(packed: &[u8], image: &mut [u8]) -> u32
    ensures { ◌≡◌ {A = Outcome} (record { answer = result; image = image.new }) (unpack_call packed.now image.old) }
{
    let mut room = Packed::room();
    let plain = unpack_into(packed, &mut room);
    let c = image::check(plain);
    let Checked::Good(_) = c else {
        return image::number_of(c);
    };
    if image.len() != plain.len() {
        return Refusal::Buffer.number();
    }
    image.copy_from_slice(plain);
    0
}

// A fresh packed table of a parlour of n heads, for the head at a stall.
#[tactic(auto, unfolding(crate::specs::Calls::packed_fresh_call))]
#[unsafe(no_mangle)]
pub extern "C" fn wilbryn_packed_fresh(packed: &mut [u8], n: u8, stall: u8) -> u32
    ensures { ◌≡◌ {A = Outcome} (record { answer = result; image = packed.new }) (packed_fresh_call packed.old n stall) }
{
    form::fresh::<Packed>(packed, n, stall)
}

// The number of the first check that fails, 0 where none does.
#[unsafe(no_mangle)]
pub extern "C" fn wilbryn_packed_check(packed: &[u8]) -> u32
    ensures { result ≡ number_of (packed_checked packed.now) }
{
    image::number_of(check(packed))
}

// The current yield becomes a new one.
#[tactic(auto, using(crate::proofs::Checks::plains))]
#[unsafe(no_mangle)]
pub extern "C" fn wilbryn_packed_milking(packed: &mut [u8], given: u16) -> u32
    ensures { ◌≡◌ {A = Outcome} (record { answer = result; image = packed.new }) (packed_milking_call packed.old given) }
{
    form::milking::<Packed>(packed, given)
}

// The heard stalls of a packed table with their yields.
#[tactic(auto, using(crate::proofs::ByPlain::hand_overs))]
#[unsafe(no_mangle)]
pub extern "C" fn wilbryn_packed_heard(packed: &[u8], records: &mut [u8]) -> u32
    ensures { ◌≡◌ {A = HeardOutcome} (record { answer = result; records = records.new }) (packed_heard_call packed.now records.old) }
{
    form::heard::<Packed>(packed, records)
}

// For each stall, how many stalls the head knows to have heard its latest of that stall.
#[tactic(auto, using(crate::proofs::ByPlain::hand_overs))]
#[unsafe(no_mangle)]
pub extern "C" fn wilbryn_packed_settled(packed: &[u8], counts: &mut [u8]) -> u32
    ensures { ◌≡◌ {A = Settled} (record { answer = result; counts = counts.new }) (packed_settled_call packed.now counts.old) }
{
    form::settled::<Packed>(packed, counts)
}

// The label of a meeting, or 256 plus the number of its refusal.
#[unsafe(no_mangle)]
pub extern "C" fn wilbryn_packed_meeting(
    first: &mut [u8],
    second: &mut [u8],
    verdicts: &mut [u8],
) -> u32
    ensures { ◌≡◌ {A = MeetingOutcome}
        (record { answer = result; first = first.new; second = second.new; verdicts = verdicts.new })
        (packed_meeting_call first.old second.old verdicts.old) }
{
    let mut one_room = Packed::room();
    let mut two_room = Packed::room();
    let one = unpack_into(first, &mut one_room);
    let two = unpack_into(second, &mut two_room);
    let answer = head::wilbryn_meeting(one, two, verdicts);
    // By its number: this is the answer of an export, which has no other form.
    if Refusal::ABOVE <= answer {
        return answer;
    }
    pack_both(one, first, two, second);
    answer
}
