// The heard list: records of three bytes, a stall and its yield, in ranking order.
ghost use Rattle.std.specs.Prelude.{◌≡◌, ◌+◌, ◌*◌, ◌≤◌, ◌<◌, not, cond, length, take, drop};
ghost use mathlib.Core.List.{◌++◌, flat_map};
ghost use Rattle.image.specs.Layout.{largest, word, yields_from};
ghost use Rattle.image.specs.Row.{is_never, own_row};
ghost use Rattle.head.specs.Heard.{bytes_of, HeardOutcome, heard_list};
ghost use Rattle.head.specs.Gathered.{records_to};

use image::bytes::{clear_from, yields_place};
use image::rows::{is_never, own_row};
use image::{Entry, Image, STALLS};
use rank::Record;

// The first records of an array: no heap, so the array with how many it holds.
#[derive(Clone, Copy, Debug, PartialEq, Eq)]
struct Gathered {
    records: [Record; STALLS],
    count: usize,
}

// A record has a name.
fn is_heard(e: Entry) -> bool
    ensures { result ≡ not (is_never e.name) }
{
    !is_never(e.name)
}

// The record of a stall whose yield is at a place, by its two bytes: word_at of image is for that crate alone, and for all it would be a public
// function with a requires.
fn record_at(image: &[u8], stall: usize, at: usize) -> Record
    requires { (stall < 256) × (at + 1 < length image.now) }
    ensures { result ≡ record { stall = stall; given = word image.now at } }
{
    Record {
        // At most 16: `try_from` would add a branch.
        stall: stall as u8,
        given: u16::from_be_bytes([image[at], image[at + 1]]),
    }
}

// One more where something holds.
fn one_more(count: usize, holds: bool) -> usize
    requires { count < largest }
    ensures { result ≡ count + cond holds 1 0 }
{
    if holds { count + 1 } else { count }
}

// The records of the heard stalls of a head, by stall number. One of a stall never heard is written too, and the next takes its place. The place of
// the yield goes along: computed, from a byte that counts, it would be two conversions more in each turn.
fn gather(x: &Image<'_>) -> Gathered
    ensures { (result.count ≤ x.now.n)
        × (take result.count result.records
        ≡ records_to x.now.bytes.now (yields_from (length x.now.bytes.now) x.now.n) (own_row x.now.bytes.now x.now.n x.now.own) x.now.n) }
{
    let n = usize::from(x.n);
    let row = own_row(x.bytes, x.n, x.own);
    let mut records = [Record { stall: 0, given: 0 }; STALLS];
    let mut count = 0usize;
    let mut at = yields_place(x.bytes.len(), n);
    for r in 0..n {
        records[count] = record_at(x.bytes, r + 1, at);
        count = one_more(count, is_heard(row[r]));
        at += 2;
    }
    Gathered { records, count }
}

// The bytes of a record at a place.
#[tactic(auto, using(crate::proofs::Listed::stores))]
fn put_record(bytes: &mut [u8], at: usize, r: Record)
    requires { at + 3 ≤ length bytes.old }
    ensures { bytes.new ≡ take at bytes.old ++ bytes_of r ++ drop (at + 3) bytes.old }
{
    let [high, low] = r.given.to_be_bytes();
    bytes[at] = r.stall;
    bytes[at + 1] = high;
    bytes[at + 2] = low;
}

// The bytes of the first records of an array. By value and by an index: as a slice of what `in_order` answers, with `iter().enumerate()`, the array
// gets a place of its own, zeros and a copy, and the heard list took 1.03 to 1.06 of its time at two to four heads.
fn put_records(bytes: &mut [u8], records: [Record; STALLS], count: usize)
    requires { (count ≤ largest) × (3 * count ≤ length bytes.old) }
    ensures { bytes.new ≡ flat_map bytes_of (take count records) ++ drop (3 * count) bytes.old }
{
    for i in 0..count {
        put_record(bytes, 3 * i, records[i]);
    }
}

// The heard list of a head into a buffer of the right length.
pub(crate) fn heard_list(x: &Image<'_>, bytes: &mut [u8]) -> u32
    requires { length bytes.old ≡ 3 * x.now.n }
    ensures { ◌≡◌ {A = HeardOutcome} (record { answer = result; records = bytes.new }) (heard_list x.now.bytes.now x.now.n x.now.own) }
{
    let Gathered { records, count } = gather(x);
    // `in_order` works on a copy: `place` on the records where they were just written waits for these stores, and took 1.2 of the time at two heads.
    put_records(bytes, rank::in_order(records, count), count);
    clear_from(bytes, 3 * count);
    // There is no From of a usize to u32.
    count as u32
}
