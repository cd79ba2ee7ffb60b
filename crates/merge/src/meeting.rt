// A meeting of two heads: refused by number, or both images and the verdicts written.
ghost use Rattle.std.specs.Prelude.{◌≡◌, cond, length, ◌≤◌};
ghost use Rattle.image.specs.Frame.{Framed};
ghost use Rattle.image.specs.Layout.{largest};
ghost use Rattle.image.specs.Check.{checked};
ghost use Rattle.image.specs.declared.Checked.TheVariants.{Good};
ghost use Rattle.image.specs.Stalls.{has};
ghost use Rattle.merge.specs.ByStall.{ByStall};
ghost use Rattle.merge.specs.Call.{MeetingOutcome, met_together, meeting_call};

use crate::known::verdicts;
use crate::label::new_label;
use crate::orders::orders_after;
use crate::rows::merged_rows;
use crate::stalls::has_stall;
use crate::write::{copy_body, write_body};
use crate::yields::merged_yields;
use crate::{Both, Decided};
use image::{Checked, Header, Image, Refusal};

// Two images of one parlour, with these headers, as what is read. Here and not at `Image`, which other crates make too: a constructor for them all would be a public function with a `requires`, and no public function of the library has one.
fn both_of<'a>(first: &'a [u8], second: &'a [u8], h: Header, g: Header) -> Both<'a>
    requires { Framed first.now h.n h.stall × Framed second.now g.n g.stall × (h.n ≡ g.n) }
    ensures { (result.first.bytes.now ≡ first.now)
        × (result.second.bytes.now ≡ second.now)
        × (result.first.n ≡ h.n)
        × (result.first.own ≡ h.stall)
        × (result.second.own ≡ g.stall) }
{
    let one = Image {
        bytes: first,
        n: h.n,
        own: h.stall,
    };
    let two = Image {
        bytes: second,
        n: g.n,
        own: g.stall,
    };
    Both {
        first: one,
        second: two,
    }
}

// The verdict of a stall that is not undecided, as the byte that C firmware reads.
fn verdict_byte(one: bool, two: bool) -> u8
    ensures { result ≡ cond one 1 (cond two 2 0) }
{
    if one {
        1
    } else if two {
        2
    } else {
        0
    }
}

// The verdicts into a buffer.
fn write_verdicts(buffer: &mut [u8], d: Decided)
    requires { length buffer.old ≤ largest }
    ensures { ByStall 0 (length buffer.old) (length buffer.old) (λ r. cond (has d.one r) 1 (cond (has d.two r) 2 0)) buffer.new }
{
    for (i, verdict) in buffer.iter_mut().enumerate() {
        *verdict = verdict_byte(has_stall(d.one, i), has_stall(d.two, i));
    }
}

// The meeting of two accepted images of n heads with different stalls, and a buffer of n bytes. All of the images is read, through views, before a byte of them is written.
// It answers a number, since `met_together` (specs) does: of a Result the equation would need one definition more, which makes that number.
// The verdicts are written before the rows are made: written after them, the stack frame was 1,448 bytes in place of 952.
fn meet(first: &mut [u8], second: &mut [u8], h: Header, g: Header, buffer: &mut [u8]) -> u32
    requires accepted { (checked first.old ≡ Good h) × (checked second.old ≡ Good g) × (h.n ≡ g.n) }
    requires buffer_len { length buffer.old ≡ h.n }
    ensures { ◌≡◌ {A = MeetingOutcome}
        (record { answer = result; first = first.new; second = second.new; verdicts = buffer.new })
        (met_together first.old second.old buffer.old h.n h.stall g.stall) }
{
    let both = both_of(first, second, h, g);
    let d = verdicts(&both);
    if d.nine != 0 {
        return Refusal::Verdict.answer();
    }
    write_verdicts(buffer, d);
    let orders = orders_after(&both, d);
    let k = new_label(&both);
    let rows = merged_rows(&both, k, d.two);
    let yields = merged_yields(&both, d.two);
    write_body(first, usize::from(h.n), rows, yields, orders);
    copy_body(second, first);
    u32::from(k)
}

// The label of a meeting, or 256 plus the number of its refusal: a number for both, as docs/DECISIONS.md and `meeting_call` (specs) have it; `head` exports it as it is.
// A refused check is taken apart by `let .. else` and its number handed on, not by `?`: the scope document names the form.
#[tactic(auto, using(image::proofs::Stages::number_le), unfolding(crate::specs::Call::meeting_call, crate::specs::Call::met_checked, crate::specs::Call::met_good))]
pub fn meeting(first: &mut [u8], second: &mut [u8], buffer: &mut [u8]) -> u32
    ensures { ◌≡◌ {A = MeetingOutcome}
        (record { answer = result; first = first.new; second = second.new; verdicts = buffer.new })
        (meeting_call first.old second.old buffer.old) }
{
    let c = image::check(first);
    let Checked::Good(h) = c else {
        return Refusal::ABOVE + image::number_of(c);
    };
    let d = image::check(second);
    let Checked::Good(g) = d else {
        return Refusal::ABOVE + image::number_of(d);
    };
    if h.n != g.n || h.stall == g.stall {
        return Refusal::Strangers.answer();
    }
    if buffer.len() != usize::from(h.n) {
        return Refusal::Buffer.answer();
    }
    meet(first, second, h, g, buffer)
}
