// What a line program does between reading and writing: lines out of blocks of input, each answered as it ends.
#![tactic(auto)]

ghost use Rattle.std.specs.Prelude.{◌≡◌, ◌+◌, ◌≤◌, [], ◌∷◌, length, take};
ghost use Rattle.line.specs.Parlour.{state_length};
ghost use Rattle.stream.specs.Stream.{line_output, last_output};
ghost use Rattle.stream.specs.Kept.{longest_line, with_byte};
ghost use Rattle.stream.specs.Call.{room, is_ready, Ready, ending, put_from, Answers, keeping, Taken, FeedCall, finish_call};

use line::{ANSWER, STATE};

// How many bytes of a line are kept: no frame has more than 8 digits, so 9 bytes tell as much as the whole line.
pub const LINE: usize = 9;

// The longest answer and a newline.
pub const ROOM: usize = ANSWER + 1;

// The line so far is the front of `text`, `kept` bytes of it, and `state`, `text` and `out` are lent one by one: so `feed` and `finish` have
// it, as they promise. Inside, a struct of the three would hold each as a `&mut`, and every function that takes it would have to
// ensure for each that it is the same reference still: no plainer.

// How many bytes of the line so far are kept, and where the answers end.
#[derive(Clone, Copy, Debug, PartialEq, Eq)]
struct Reached {
    kept: usize,
    end: usize,
}

// How much of a block was taken, how many bytes of the last line are kept, and how long the answers are.
#[derive(Clone, Copy, Debug, PartialEq, Eq)]
pub struct Fed {
    pub taken: usize,
    pub kept: usize,
    pub end: usize,
}

// The lent runs have the right lengths.
#[tactic(auto, unfolding(crate::specs::Call::is_ready))]
fn is_ready(state: &[u8], text: &[u8], kept: usize, out: &[u8]) -> bool
    ensures { result ≡ is_ready state.now text.now kept out.now }
{
    state.len() == STATE && text.len() == LINE && kept <= LINE && ROOM <= out.len()
}

// One byte more of a line.
#[tactic(auto, using(crate::proofs::Keeping::keeps))]
fn keep(text: &mut [u8], kept: usize, byte: u8) -> usize
    requires { length text.old ≡ longest_line }
    ensures { keeping text.new result ≡ with_byte (keeping text.old kept) byte }
{
    if kept < LINE {
        text[kept] = byte;
        kept + 1
    } else {
        kept
    }
}

// The answer to a line, and a newline, from a place on: where they end.
fn answer_line(state: &mut [u8], text: &[u8], out: &mut [u8], at: usize) -> usize
    requires { (length state.old ≡ state_length) × (at + room ≤ length out.old) }
    ensures { (result ≤ at + room)
        × (ending result state.new out.new ≡ put_from out.old at (line_output state.old text.now)) }
{
    let end = at + ANSWER;
    let count = line::answer(state, text, &mut out[at..end]);
    let next = at + count;
    out[next] = b'\n';
    next + 1
}

// One byte of input.
fn step(
    state: &mut [u8],
    text: &mut [u8],
    kept: usize,
    byte: u8,
    out: &mut [u8],
    at: usize,
) -> Reached
    requires { (length state.old ≡ state_length) × (length text.old ≡ longest_line) × (kept ≤ longest_line) × (at + room ≤ length out.old) }
    ensures { (result.kept ≤ longest_line) × (result.end ≤ at + room)
        × Answers state.old (keeping text.old kept) (byte ∷ []) out.old at result.end state.new (keeping text.new result.kept) out.new }
{
    if byte == b'\n' {
        let end = answer_line(state, &text[..kept], out, at);
        return Reached { kept: 0, end };
    }
    let more = keep(text, kept, byte);
    Reached {
        kept: more,
        end: at,
    }
}

// Bytes of a block, as long as there is room for one more answer.
fn feed_all(state: &mut [u8], text: &mut [u8], kept: usize, block: &[u8], out: &mut [u8]) -> Fed
    requires { Ready state.old text.old kept out.old }
    ensures { Taken state.old text.old kept block.now out.old result state.new text.new out.new }
{
    let mut held = kept;
    let mut end = 0;
    for (taken, &byte) in block.iter().enumerate() {
        if out.len() - end < ROOM {
            return Fed {
                taken,
                kept: held,
                end,
            };
        }
        let reached = step(state, text, held, byte, out, end);
        held = reached.kept;
        end = reached.end;
    }
    Fed {
        taken: block.len(),
        kept: held,
        end,
    }
}

// Answers the lines that the front of a block ends, at the front of out; the line so far goes on in text. Where the runs have not
// STATE, LINE and at least ROOM bytes, or more than LINE are said to be kept, it takes nothing.
#[tactic(auto, using(crate::proofs::Calls::feeds))]
pub fn feed(state: &mut [u8], text: &mut [u8], kept: usize, block: &[u8], out: &mut [u8]) -> Fed
    ensures { FeedCall state.old text.old kept block.now out.old result state.new text.new out.new }
{
    if is_ready(state, text, kept, out) {
        feed_all(state, text, kept, block, out)
    } else {
        Fed {
            taken: 0,
            kept,
            end: 0,
        }
    }
}

// The last line, if bytes of one are kept.
fn last_line(state: &mut [u8], text: &[u8], kept: usize, out: &mut [u8]) -> usize
    requires { Ready state.old text.now kept out.old }
    ensures { ending result state.new out.new ≡ put_from out.old 0 (last_output state.old (take kept text.now)) }
{
    if kept == 0 {
        return 0;
    }
    answer_line(state, &text[..kept], out, 0)
}

// Answers a last line that no newline ended, at the front of out, and says how long the answer is: 0 where nothing is kept of one,
// or the lent runs are not as feed wants them.
#[tactic(auto, using(crate::proofs::Calls::finishes))]
pub fn finish(state: &mut [u8], text: &[u8], kept: usize, out: &mut [u8]) -> usize
    ensures { ending result state.new out.new ≡ finish_call state.old text.now kept out.old }
{
    if is_ready(state, text, kept, out) {
        last_line(state, text, kept, out)
    } else {
        0
    }
}
