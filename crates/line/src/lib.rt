// One line of the line program: a frame in, its answer out, and the parlour between lines in a lent state.
#![tactic(auto)]

ghost use Rattle.std.specs.Prelude.{◌≡◌, true, false, [], ◌∷◌, ◌+◌, ◌*◌, ◌≤◌, length};
ghost use Rattle.line.specs.Parlour.{is_open};
ghost use Rattle.line.specs.Answer.{opening, milking, meeting, showing, hearing, settling, reply_to, written, outcome, replied, answer_call};
ghost use Rattle.line.specs.Refused.{finished};
ghost use Rattle.line.specs.Asked.{Ready, Opened};

use crate::digits::{put_byte, put_bytes};
use crate::frame::Frame;
use crate::parlour::{meet_at, open_parlour, slot_of};
use crate::refusal::{Refusal, accepted, answered};
use image::bytes::is_count;
use image::{LONGEST, STALLS, length_of};

mod digits;
pub mod frame;
mod parlour;
mod refusal;

// The bytes of the state between lines, and the digits of the longest answer: `00` and the longest image.
pub const STATE: usize = 1 + STALLS * LONGEST;

pub const ANSWER: usize = 2 + 2 * LONGEST;

// `state` and `out` are lent side by side: a struct of the two is no plainer, since each function that takes one with a `&mut` in it has to
// ensure for each that it is the same reference still. Nor is a view of the state for `show`, `heard` and `settled`, which only read it: they
// write `out` and would ask for its length still, and `reply_open`, where others write the state, would make the view in three of its arms.
// What `answer` is lent, and that it cannot fail, is promised: so there is no Vec inside, and a buffer is the front of an array.

// Three forms of answer: a byte; 00 and bytes; 00, a byte and bytes. `reply_bytes` by `reply_with` would take its bytes apart into a first and a
// rest, and ask for a first: no plainer.

// An answer of one byte: a refusal's number, or 0.
#[tactic(auto, using(crate::proofs::Replying::written_one))]
fn reply_byte(out: &mut [u8], byte: u8) -> usize
    requires { 2 ≤ length out.old }
    ensures { (result ≡ 2) × (out.new ≡ written out.old (byte ∷ [])) }
{
    put_byte(out, 0, byte);
    2
}

// 00 and some bytes.
fn reply_bytes(out: &mut [u8], bytes: &[u8]) -> usize
    requires { 2 + 2 * length bytes.now ≤ length out.old }
    ensures { (result ≡ 2 + 2 * length bytes.now)
        × (out.new ≡ written out.old (0 ∷ bytes.now)) }
{
    put_byte(out, 0, 0);
    put_bytes(out, 2, bytes);
    2 + 2 * bytes.len()
}

// 00, a byte, and some more.
fn reply_with(out: &mut [u8], byte: u8, more: &[u8]) -> usize
    requires { 4 + 2 * length more.now ≤ length out.old }
    ensures { (result ≡ 4 + 2 * length more.now)
        × (out.new ≡ written out.old (0 ∷ byte ∷ more.now)) }
{
    put_byte(out, 0, 0);
    put_byte(out, 2, byte);
    put_bytes(out, 4, more);
    4 + 2 * more.len()
}

// Opens a parlour of n heads.
#[tactic(auto, unfolding(crate::specs::Answer::opening))]
fn open(state: &mut [u8], n: u8, out: &mut [u8]) -> Result<usize, Refusal>
    requires { Ready state.old out.old }
    ensures { finished result state.new out.new ≡ replied out.old (opening state.old n) }
{
    if !is_count(n) {
        return Err(Refusal::Image(image::Refusal::Count));
    }
    open_parlour(state, n);
    Ok(reply_byte(out, 0)) // It is open now.
}

// A milking of the head at a stall.
fn milk(state: &mut [u8], stall: u8, given: u16, out: &mut [u8]) -> Result<usize, Refusal>
    requires { Opened state.old out.old }
    ensures { finished result state.new out.new ≡ replied out.old (milking state.old stall given) }
{
    let slot = slot_of(state, stall)?;
    let number = head::wilbryn_milking(&mut state[slot], given);
    accepted(number)?;
    Ok(reply_byte(out, 0))
}

// A meeting of the heads at two stalls.
fn meet(state: &mut [u8], p: u8, q: u8, out: &mut [u8]) -> Result<usize, Refusal>
    requires { Opened state.old out.old }
    ensures { finished result state.new out.new ≡ replied out.old (meeting state.old p q) }
{
    let first = slot_of(state, p)?;
    let second = slot_of(state, q)?;
    if p == q {
        return Err(Refusal::Image(image::Refusal::Strangers));
    }
    let n = usize::from(state[0]);
    let mut copy = [0u8; LONGEST];
    let mut verdicts = [0u8; STALLS];
    let count = length_of(n);
    let answer = meet_at(
        state,
        first.start,
        second.start,
        &mut copy[..count],
        &mut verdicts[..n],
    );
    let label = answered(answer)?;
    Ok(reply_with(out, label, &verdicts[..n]))
}

// Shows the image of the head at a stall.
fn show(state: &[u8], stall: u8, out: &mut [u8]) -> Result<usize, Refusal>
    requires { Opened state.now out.old }
    ensures { finished result state.now out.new ≡ replied out.old (showing state.now stall) }
{
    let slot = slot_of(state, stall)?;
    Ok(reply_bytes(out, &state[slot]))
}

// Shows the heard list of the head at a stall. (`settled` looks alike but is no twin: its call answers 0 and not a count, and all of its buffer is told.)
fn heard(state: &[u8], stall: u8, out: &mut [u8]) -> Result<usize, Refusal>
    requires { Opened state.now out.old }
    ensures { finished result state.now out.new ≡ replied out.old (hearing state.now stall) }
{
    let slot = slot_of(state, stall)?;
    let n = usize::from(state[0]);
    let mut records = [0u8; 3 * STALLS];
    let answer = head::wilbryn_heard(&state[slot], &mut records[..3 * n]);
    let count = answered(answer)?;
    Ok(reply_with(out, count, &records[..3 * usize::from(count)]))
}

// Shows for each stall how many stalls the head at the named one knows to have heard its latest of that stall.
fn settled(state: &[u8], stall: u8, out: &mut [u8]) -> Result<usize, Refusal>
    requires { Opened state.now out.old }
    ensures { finished result state.now out.new ≡ replied out.old (settling state.now stall) }
{
    let slot = slot_of(state, stall)?;
    let n = usize::from(state[0]);
    let mut counts = [0u8; STALLS];
    let number = head::wilbryn_settled(&state[slot], &mut counts[..n]);
    accepted(number)?;
    Ok(reply_bytes(out, &counts[..n]))
}

// The answer to a frame while a parlour is open.
fn reply_open(state: &mut [u8], frame: Frame, out: &mut [u8]) -> Result<usize, Refusal>
    requires { Opened state.old out.old }
    ensures { finished result state.new out.new ≡ replied out.old (reply_to state.old true frame) }
{
    match frame {
        Frame::Bad => Err(Refusal::Line),
        Frame::Open(_) => Err(Refusal::Opening),
        Frame::Milking(stall, given) => milk(state, stall, given, out),
        Frame::Meeting(p, q) => meet(state, p, q, out),
        Frame::Show(stall) => show(state, stall, out),
        Frame::Heard(stall) => heard(state, stall, out),
        Frame::Settled(stall) => settled(state, stall, out),
    }
}

// The answer to a frame before a parlour is open.
fn reply_shut(state: &mut [u8], frame: Frame, out: &mut [u8]) -> Result<usize, Refusal>
    requires { Ready state.old out.old }
    ensures { finished result state.new out.new ≡ replied out.old (reply_to state.old false frame) }
{
    match frame {
        Frame::Bad => Err(Refusal::Line), // 10 comes before 11.
        Frame::Open(n) => open(state, n, out),
        _ => Err(Refusal::Opening),
    }
}

// The answer to a frame, or its refusal.
fn reply(state: &mut [u8], frame: Frame, out: &mut [u8]) -> Result<usize, Refusal>
    requires { Ready state.old out.old }
    ensures { finished result state.new out.new ≡ replied out.old (reply_to state.old (is_open state.old) frame) }
{
    if is_count(state[0]) {
        reply_open(state, frame, out)
    } else {
        reply_shut(state, frame, out)
    }
}

// The answer to a line as digits at the start of out, and how many they are: 0 where the state has not STATE bytes or out fewer than ANSWER.
#[tactic(auto, unfolding(crate::specs::Answer::answer_call))]
pub fn answer(state: &mut [u8], line: &[u8], out: &mut [u8]) -> usize
    ensures { outcome result state.new out.new ≡ answer_call state.old line.now out.old }
{
    if state.len() != STATE || out.len() < ANSWER {
        return 0;
    }
    match reply(state, frame::parse(line), out) {
        Ok(count) => count,
        Err(refusal) => reply_byte(out, refusal.number()),
    }
}
