// The forms that a table is stored in, and the calls that are one for all of them. These answer numbers, as the exports do that pass them on:
// specs/ state a call as a record of its answer and what it leaves (Outcome, HeardOutcome, Settled), in which a Result would be a second answer.
ghost use Rattle.std.specs.Prelude.{◌≡◌, ◌≤◌, true, false, Bool, ℕ, List, not, eqb, length};
ghost use Rattle.image.specs.Check.{bad_stall, checked};
ghost use Rattle.image.specs.Fresh.{fresh_image};
ghost use Rattle.image.specs.Layout.{is_count, length_of};
ghost use Rattle.image.specs.declared.Checked.TheVariants.{Good};
ghost use Rattle.image.specs.declared.Header.{Header};
ghost use Rattle.head.specs.Calls.{Outcome, fresh_into, milked};
ghost use Rattle.head.specs.Heard.{HeardOutcome, heard_call};
ghost use Rattle.head.specs.Settled.{Settled, settled_call};

use crate::{heard, settled};
use image::{Checked, Head, Header, Image, Refusal};

// A form that a table is stored in.
pub trait Form {
    // The image of what is stored; of what its first checks refuse, a run that is refused with the same number.
    ghost plain: { List ℕ → List ℕ };

    // For so many heads a table has this form, and so many bytes.
    ghost is_count: { ℕ → Bool };

    ghost length_of: { ℕ → ℕ };

    // The table of a head that has heard nobody, by N and its stall.
    ghost fresh: { ℕ → ℕ → List ℕ };

    // Room for the image.
    type Room: Drop;

    fn room() -> Self::Room;

    fn plain<'a>(table: &'a [u8], room: &'a mut Self::Room) -> &'a [u8]
        ensures { result.now ≡ plain table.now };

    // The first number that applies; N, the stall and the current yield of what passes stand in its first four bytes.
    fn check(table: &[u8]) -> Checked
        ensures checked { result ≡ checked (plain table.now) }
        ensures header { (h : Header) → result ≡ Good h → 4 ≤ length table.now };

    fn is_count(n: u8) -> bool
        ensures { result ≡ is_count n };

    // Bytes of a table of n heads, 0 where none has this form: no Option, as the lengths that specs/ name are numbers, and `fresh` only compares it.
    fn length_of(n: usize) -> usize
        ensures { result ≡ length_of n };

    // The fresh table over all of a run of its length. Of another N or length, which `fresh` refuses before, it promises nothing.
    fn write_fresh(table: &mut [u8], n: u8, stall: u8)
        ensures fresh { is_count n ≡ true → length table.old ≡ length_of n → table.new ≡ fresh n stall }
        ensures reads { is_count n ≡ true → length table.old ≡ length_of n → plain table.new ≡ fresh_image n stall };
}

// Stored as the image itself.
#[derive(Clone, Copy, Debug, PartialEq, Eq)]
pub struct Plain;

impl Form for Plain {
    ghost plain = { λ s. s };

    ghost is_count = { is_count };

    ghost length_of = { length_of };

    ghost fresh = { fresh_image };

    type Room = ();

    fn room() {}

    fn plain<'a>(table: &'a [u8], _room: &'a mut ()) -> &'a [u8] {
        table
    }

    #[tactic(auto, using(crate::proofs::Milking::lengths))]
    fn check(table: &[u8]) -> Checked {
        image::check(table)
    }

    fn is_count(n: u8) -> bool {
        image::bytes::is_count(n)
    }

    fn length_of(n: usize) -> usize {
        image::length_of(n)
    }

    #[tactic(auto, using(crate::proofs::Freshness::fresh_ones))]
    fn write_fresh(table: &mut [u8], n: u8, stall: u8) {
        Head::fresh(n, stall).write(table);
    }
}

// A fresh table of a parlour of n heads, for the head at a stall: 0, or the number of the refusal, which leaves the run as it was.
pub fn fresh<F: Form>(table: &mut [u8], n: u8, stall: u8) -> u32
    ensures { ◌≡◌ {A = Outcome} (record { answer = result; image = table.new })
        (fresh_into (not (F.is_count n)) (not (eqb (length table.old) (F.length_of n))) (bad_stall n stall) (F.fresh n stall) table.old) }
{
    if !F::is_count(n) {
        return Refusal::Count.number();
    }
    if table.len() != F::length_of(usize::from(n)) {
        return Refusal::Length.number();
    }
    if image::bytes::bad_stall(n, stall) {
        return Refusal::Stall.number();
    }
    F::write_fresh(table, n, stall);
    0
}

// The current yield becomes a new one, in decilitres: 0, or the number of the refusal, which leaves the table as it was.
#[tactic(auto, unfolding(crate::specs::Calls::milked))]
pub fn milking<F: Form>(table: &mut [u8], given: u16) -> u32
    ensures { ◌≡◌ {A = Outcome} (record { answer = result; image = table.new }) (milked table.old given (checked (F.plain table.old))) }
{
    let c = F::check(table);
    let Checked::Good(_) = c else {
        return image::number_of(c);
    };
    if Head::YIELD_LIMIT < given {
        return Refusal::Yield.number();
    }
    table[2..4].copy_from_slice(&given.to_be_bytes());
    0
}

// What the later parts of a call read of an image that passed its check. Not in image, for merge too: a public function would need the requires,
// which no public function gains.
fn accepted<'a>(bytes: &'a [u8], h: Header) -> Image<'a>
    requires { checked bytes.now ≡ Good h }
    ensures { (result.bytes.now ≡ bytes.now) × (result.n ≡ h.n) × (result.own ≡ h.stall) }
{
    Image {
        bytes,
        n: h.n,
        own: h.stall,
    }
}

// `heard` and `settled` stay two functions: they differ in the number of each refusal, in the buffer that they take, and in what is written
// and answered, which leaves a common one only the first four lines and asks for four closures.

// The heard stalls of a table with their yields, in ranking order: how many, or 256 plus the number of the refusal.
#[tactic(auto, using(crate::proofs::HeardCalls::accepts), unfolding(crate::specs::Heard::heard_from))]
pub fn heard<F: Form>(table: &[u8], records: &mut [u8]) -> u32
    ensures { ◌≡◌ {A = HeardOutcome} (record { answer = result; records = records.new }) (heard_call (F.plain table.now) records.old) }
{
    let mut room = F::room();
    let bytes = F::plain(table, &mut room);
    let c = image::check(bytes);
    let Checked::Good(h) = c else {
        return Refusal::ABOVE + image::number_of(c);
    };
    if records.len() != 3 * usize::from(h.n) {
        return Refusal::Buffer.answer();
    }
    heard::heard_list(&accepted(bytes, h), records)
}

// For each stall, how many stalls the head knows to have heard its latest of that stall: 0, or the number of the refusal.
#[tactic(auto, using(crate::proofs::HeardCalls::accepts), unfolding(crate::specs::Settled::settled_from))]
pub fn settled<F: Form>(table: &[u8], counts: &mut [u8]) -> u32
    ensures { ◌≡◌ {A = Settled} (record { answer = result; counts = counts.new }) (settled_call (F.plain table.now) counts.old) }
{
    let mut room = F::room();
    let bytes = F::plain(table, &mut room);
    let c = image::check(bytes);
    let Checked::Good(h) = c else {
        return image::number_of(c);
    };
    if counts.len() != usize::from(h.n) {
        return Refusal::Buffer.number();
    }
    settled::put_counts(&accepted(bytes, h), counts);
    0
}
