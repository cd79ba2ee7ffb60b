// A line as a frame.
ghost use Rattle.std.specs.Prelude.{◌≡◌, true};
ghost use Rattle.line.specs.Digits.{all_digits};
ghost use Rattle.line.specs.Frame.{kind_of_two, kind_of_three, kind_of_four, frame_of};

use crate::digits::{are_digits, byte_at};

// What a line asks for. A line that is no frame is `Bad`, and `parse` answers no Option or Result: what is promised names the case, in
// `frame_of`, `reply_to` and its theorem `refusal_alone`, and in what `sessions` says of each frame (`answer_to`, `opens`, `items_of`).
#[derive(Clone, Copy, Debug, PartialEq, Eq)]
pub enum Frame {
    Open(u8),
    Milking(u8, u16),
    Meeting(u8, u8),
    Show(u8),
    Heard(u8),
    Settled(u8),
    Bad,
}

// The kinds of frames: the first byte of each. Numbers, and no enum of kinds: they are read here alone, and an enum would say again what Frame says.
const OPEN: u8 = 1;

const MILKING: u8 = 2;

const MEETING: u8 = 3;

const SHOW: u8 = 4;

const HEARD: u8 = 5;

const SETTLED: u8 = 6;

// The kinds of two bytes.
#[tactic(auto, unfolding(crate::specs::Frame::kind_of_two))]
fn of_two(kind: u8, x: u8) -> Frame
    ensures { result ≡ kind_of_two kind x }
{
    match kind {
        OPEN => Frame::Open(x),
        SHOW => Frame::Show(x),
        HEARD => Frame::Heard(x),
        SETTLED => Frame::Settled(x),
        _ => Frame::Bad,
    }
}

// The kind of three bytes.
#[tactic(auto, unfolding(crate::specs::Frame::kind_of_three))]
fn of_three(kind: u8, x: u8, y: u8) -> Frame
    ensures { result ≡ kind_of_three kind x y }
{
    match kind {
        MEETING => Frame::Meeting(x, y),
        _ => Frame::Bad,
    }
}

// The kind of four bytes: the yield has its high byte first.
#[tactic(auto, unfolding(crate::specs::Frame::kind_of_four))]
fn of_four(kind: u8, x: u8, high: u8, low: u8) -> Frame
    ensures { result ≡ kind_of_four kind x high low }
{
    match kind {
        MILKING => Frame::Milking(x, u16::from_be_bytes([high, low])),
        _ => Frame::Bad,
    }
}

// The frame of a line of digits.
#[tactic(auto, using(crate::proofs::Parsing::parsings))]
fn parse_digits(line: &[u8]) -> Frame
    requires { all_digits line.now ≡ true }
    ensures { result ≡ frame_of line.now }
{
    match line.len() {
        4 => of_two(byte_at(line, 0), byte_at(line, 2)),
        6 => of_three(byte_at(line, 0), byte_at(line, 2), byte_at(line, 4)),
        8 => of_four(
            byte_at(line, 0),
            byte_at(line, 2),
            byte_at(line, 4),
            byte_at(line, 6),
        ),
        _ => Frame::Bad,
    }
}

// The frame of a line. Its length is looked at first: a frame has 4, 6 or 8 digits, and a line of any other length, as an empty one, is refused at once.
#[tactic(auto, using(crate::proofs::Parsing::parsings))]
pub fn parse(line: &[u8]) -> Frame
    ensures { result ≡ frame_of line.now }
{
    if matches!(line.len(), 4 | 6 | 8) && are_digits(line) {
        parse_digits(line)
    } else {
        Frame::Bad
    }
}
