// What two heads that meet know of each other's latests, and the verdicts, as sets of stalls.
ghost use Rattle.std.specs.Prelude.{◌≡◌, ◌+◌, ◌*◌, ◌≤◌, ◌<◌, not, eqb, length};
ghost use Rattle.std.specs.Int.Bits.{bit_and, bit_or};
ghost use Rattle.image.specs.Stalls.{bits, without};
ghost use Rattle.image.specs.Layout.{order_at, row_place};
ghost use Rattle.image.specs.Encode.{table_of};
ghost use Rattle.image.specs.Row.{is_never};
ghost use Rattle.merge.specs.Verdict.{same_name};
ghost use Rattle.merge.specs.Views.{partner_in, label_in, name_in, row_name, across, shared, Views, Decides};

use crate::stalls::{all_stalls, without};
use crate::{Both, Decided, Seen, View};
use image::bytes::row_place;
use image::marks::pick;
use image::orders::{order_at, order_width, orders_place};
use image::{Entry, Image, Meet, Name};

// The partner and the label of a name, 0 both where there is none: `column` compares them with no branch, as it could not compare an Option of them. `partner_in` and `label_in` (specs) say the same.
fn meet_of(x: Name) -> Meet
    ensures { (result.partner ≡ partner_in x) × (result.label ≡ label_in x) }
{
    match x {
        Name::Never => Meet {
            partner: 0,
            label: 0,
        },
        Name::With(m) => m,
    }
}

// The record at a place.
fn entry_at(image: &[u8], at: usize) -> Entry
    requires { at + 1 < length image.now }
    ensures { result.name ≡ name_in image.now at }
{
    Entry {
        name: image::name_from(image[at], image[at + 1]),
    }
}

// How far behind the start of a row of n names the name in column d stands; 0 where there is no such column, so that there is always a name to read: `across` (specs) is this number.
fn across(n: u8, d: u8) -> usize
    ensures { result ≡ across n d }
{
    if 1 <= d && d <= n {
        (usize::from(d) - 1) * 2
    } else {
        0
    }
}

// Column c of an own row, at a, against the other own row, which starts at row and has its column c at b: the meeting can stand there only in column c and in its partner's.
// Names are compared by their two numbers, all of them, with no branch between: by the derived `==` sixteen names took 57 ns in place of 36.
fn column(mine: &[u8], a: usize, theirs: &[u8], b: usize, row: usize, n: u8, c: u8) -> Seen
    requires { (a + 1 < length mine.now) × (b + 1 < length theirs.now) × (row + n * 2 ≤ length theirs.now) × (1 ≤ n) }
    ensures { (result.common ≡ shared n c (name_in mine.now a) (name_in theirs.now b) (row_name theirs.now row))
        × (result.heard ≡ not (is_never (name_in mine.now a)))
        × (result.same ≡ same_name (name_in mine.now a) (name_in theirs.now b)) }
{
    let own = entry_at(mine, a);
    let other = entry_at(theirs, b);
    let x = meet_of(own.name);
    let y = meet_of(other.name);
    let crossing = entry_at(theirs, row + across(n, x.partner));
    let z = meet_of(crossing.name);
    let heard = x.partner != 0;
    let same = (x.partner == y.partner) & (x.label == y.label);
    let crossed = (x.partner <= n) & ((c == z.partner) & (x.label == z.label));
    Seen {
        common: heard & (same | crossed),
        heard,
        same,
    }
}

// One own row against the other. The places go along with the loop, since specs/ say both names by their places (name_in, row_name); computed from `c`, with sets of one stall in place of `Seen`, a meeting of 2 to 8 heads took 1.02 to 1.03 of the time.
// The set of the stall doubles with the loop, here and in `marked`: a shift by its number is no plainer, as its bound is one more thing to prove in each turn.
fn view(mine: &Image<'_>, theirs: &Image<'_>) -> View
    requires { mine.now.n ≡ theirs.now.n }
    ensures { Views mine.now.n (row_name mine.now.bytes.now (row_place mine.now.n mine.now.own)) (row_name theirs.now.bytes.now (row_place mine.now.n theirs.now.own)) result }
{
    let n = mine.n;
    let row = row_place(n, theirs.own);
    let mut common = 0u64;
    let mut heard = 0u64;
    let mut same = 0u64;
    let mut one = 1u64;
    let mut here = row_place(n, mine.own);
    let mut there = row;
    for c in 0..n {
        let x = column(mine.bytes, here, theirs.bytes, there, row, n, c + 1);
        common += pick(x.common, one);
        heard += pick(x.heard, one);
        same += pick(x.same, one);
        one += one;
        here += 2;
        there += 2;
    }
    View {
        common,
        heard,
        same,
    }
}

// The stalls with an order mark to one of a set. Entries are read at their places: one has one byte or two, which order_width tells, and only order_at reads them. The place goes along with the loop, here, in label.rt, orders.rt, rows.rt and write.rt: computed from the loop's number, tried in all of them, a meeting of 2 to 8 heads took 1.02 to 1.06 of the time.
fn marked(x: &Image<'_>, set: u64) -> u64
    ensures { result ≡ bits x.now.n (λ r. not (eqb (bit_and (order_at x.now.bytes.now x.now.n r) set) 0)) }
{
    let n = usize::from(x.n);
    let width = order_width(n);
    let mut out = 0u64;
    let mut one = 1u64;
    let mut at = orders_place(x.bytes.len(), n);
    for _ in 0..n {
        out += pick(order_at(x.bytes, n, at) & set != 0, one);
        one += one;
        at += width;
    }
    out
}

// The verdicts, by whose latests are known: the first's to the second, and the second's to the first.
fn decided(all: u64, first: u64, second: u64, x: View, y: View) -> Decided
    ensures { (result.one ≡ without second first)
        × (result.two ≡ without first second)
        × (result.nine ≡ bit_or (without all (bit_or first second)) (without (bit_and first second) x.same))
        × (result.heard ≡ bit_or (without x.heard result.two) (bit_and y.heard result.two)) }
{
    let two = without(first, second);
    Decided {
        one: without(second, first),
        two,
        nine: without(all, first | second) | without(first & second, x.same),
        heard: without(x.heard, two) | (y.heard & two),
    }
}

// The verdicts of a meeting.
pub(crate) fn verdicts(x: &Both<'_>) -> Decided
    ensures { Decides x.now.first.n x.now.first.own (table_of x.now.first.bytes.now x.now.first.n) x.now.second.own (table_of x.now.second.bytes.now x.now.first.n) result }
{
    let a = view(&x.first, &x.second);
    let b = view(&x.second, &x.first);
    let all = all_stalls(&x.first);
    let left = without(all, a.heard) | marked(&x.first, a.common);
    let right = without(all, b.heard) | marked(&x.second, b.common);
    decided(all, left, right, a, b)
}
