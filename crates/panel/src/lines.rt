// Lines of text: each function puts its text at a place of a buffer and answers the place behind it. Text and place stay two parameters: a
// struct that holds a `&mut` needs a ghost_name clause on each method. No `write!`: firmware, which has no Formatter. A digit is cast by `as`, since `try_from` would add a branch, and so
// is the length, as there is no From of a usize to u32.
ghost use Rattle.std.specs.Prelude.{◌≡◌, [], ◌∷◌, ◌+◌, ◌*◌, ◌≤◌, ◌<◌, length};
ghost use Rattle.image.specs.Layout.{largest};
ghost use Rattle.panel.specs.Decimal.{digit, decimal};
ghost use Rattle.panel.specs.Panel.{litres, line, lines, panel_length, PanelOutcome, shown};
ghost use Rattle.panel.specs.Writing.{Room, Put, record_at, records_in};

use image::bytes::clear_from;
use image::yields::is_not_milked;
use rank::Record;

// One character.
fn put(text: &mut [u8], at: usize, c: u8) -> usize
    requires { Room text.old at (c ∷ []) }
    ensures { Put text.old at (c ∷ []) text.new result }
{
    text[at] = c;
    at + 1
}

fn put_digit(text: &mut [u8], at: usize, d: usize) -> usize
    requires { (d < 10) × Room text.old at (digit d ∷ []) }
    ensures { Put text.old at (digit d ∷ []) text.new result }
{
    put(text, at, b'0' + (d as u8))
}

// The digits of a number below 100.
fn put_small(text: &mut [u8], at: usize, k: usize) -> usize
    requires { (k < 100) × Room text.old at (decimal k) }
    ensures { Put text.old at (decimal k) text.new result }
{
    if k < 10 {
        put_digit(text, at, k)
    } else {
        let last = put_digit(text, at, k / 10);
        put_digit(text, last, k % 10)
    }
}

// The digits of a number of any length: those of its tens, then its last one.
fn put_long(text: &mut [u8], at: usize, k: usize) -> usize
    requires { Room text.old at (decimal k) }
    ensures { Put text.old at (decimal k) text.new result }
{
    if k < 100 {
        put_small(text, at, k)
    } else {
        let last = put_long(text, at, k / 10);
        put_digit(text, last, k % 10)
    }
}

// The digits of a number. Three functions and not one: with one that calls itself wilbryn_panel took 1.04 to 1.12 of its time at three heads and more. A panel has no number
// over 99, so that the call of `put_long` is never made, and the compiler copies the other two into a line.
fn put_number(text: &mut [u8], at: usize, k: usize) -> usize
    requires { Room text.old at (decimal k) }
    ensures { Put text.old at (decimal k) text.new result }
{
    if k < 100 {
        put_small(text, at, k)
    } else {
        put_long(text, at, k)
    }
}

// A yield in litres.
fn put_litres(text: &mut [u8], at: usize, given: usize) -> usize
    requires { Room text.old at (litres given) }
    ensures { Put text.old at (litres given) text.new result }
{
    if is_not_milked(given) {
        return put(text, at, b'-');
    }
    let point = put_number(text, at, given / 10);
    let last = put(text, point, b'.');
    put_digit(text, last, given % 10)
}

// The line of a record.
fn put_line(text: &mut [u8], at: usize, rank: usize, r: Record) -> usize
    requires { Room text.old at (line rank r) }
    ensures { Put text.old at (line rank r) text.new result }
{
    let stall = usize::from(r.stall);
    let given = usize::from(r.given);
    let next = put_number(text, at, rank);
    let next = put(text, next, b' ');
    let next = put_number(text, next, stall);
    let next = put(text, next, b' ');
    let next = put_litres(text, next, given);
    put(text, next, b'\n')
}

// The record at a place among the bytes of a heard list. Its yield is read as in head, where a record stands in another run.
fn record_at(bytes: &[u8], i: usize) -> Record
    requires { 3 * i + 3 ≤ length bytes.now }
    ensures { result ≡ record_at bytes.now i }
{
    Record {
        stall: bytes[3 * i],
        given: u16::from_be_bytes([bytes[3 * i + 1], bytes[3 * i + 2]]),
    }
}

// The lines of the first records, which are counted beside their bytes: with `chunks_exact(3).enumerate()` the check leaves the room for a line open, as
// only the steps of the iterator tell the loop which bytes it was handed; and by the bytes alone their length would be divided by three.
fn put_lines(bytes: &[u8], count: usize, text: &mut [u8]) -> usize
    requires { (count ≤ largest) × (3 * count ≤ length bytes.now) × (length text.old ≡ panel_length) }
    ensures { Put text.old 0 (lines (records_in bytes.now count)) text.new result × (result ≤ panel_length) }
{
    let mut at = 0usize;
    for i in 0..count {
        at = put_line(text, at, i + 1, record_at(bytes, i));
    }
    at
}

// The lines, and zeros behind them.
pub(crate) fn write_panel(bytes: &[u8], count: usize, text: &mut [u8]) -> u32
    requires { (count ≤ largest) × (3 * count ≤ length bytes.now) × (length text.old ≡ panel_length) }
    ensures { ◌≡◌ {A = PanelOutcome} (record { answer = result; text = text.new }) (shown (lines (records_in bytes.now count))) }
{
    let used = put_lines(bytes, count, text);
    clear_from(text, used);
    used as u32
}
