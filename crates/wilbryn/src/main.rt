// The line program: standard input, one frame a line, to standard output, one answer a line. It reads and writes; all else is `stream`.
#![tactic(auto)]

ghost use Rattle.std.specs.Prelude.{◌≡◌, ◌≤◌, length, Some, IfOk, IfErr};
ghost use Rattle.stream.specs.Call.{Ready};
ghost use Rattle.wilbryn.specs.Turn.{standard_input, standard_output, BlockAnswered, RestAnswered, AfterBlock, ReadAnswered, TurnTaken, Ran, Start, taken};
ghost use Rattle.wilbryn.specs.declared.Failure.TheVariants.{Read as Unread, Write as Unwritten};

use std::io::{Read, Stdin, Stdout, Write};
use std::os::fd::AsRawFd;

// How many bytes a read brings at most, and how many of answers are written at once.
const BLOCK: usize = 65536;

// What stops a run before its input is over: a read or a write that failed.
#[derive(Clone, Copy, Debug, PartialEq, Eq)]
enum Failure {
    Read,
    Write,
}

// Whether the input goes on after a turn, or is over.
type Turn = Result<bool, Failure>;

// Where the lines come from, and where the answers go. (std's handles are Clone, Copy and Debug alone.)
#[derive(Clone, Copy, Debug)]
struct Ends {
    input: Stdin,
    output: Stdout,
}

// Writes answers, to standard output alone: which descriptor a handle stands for is in its `raw_fd`.
fn write_to(mut to: Stdout, answers: &[u8]) -> Result<(), Failure>
    requires { ⟦<Stdout as AsRawFd>⟧.raw_fd to ≡ Some standard_output }
    ensures { IfErr result (λ e. e ≡ Unwritten) }
{
    to.write_all(answers).map_err(|_| Failure::Write)
}

// Reads a block, from standard input alone, and answers how many bytes it brought.
fn read_from(mut from: Stdin, block: &mut [u8]) -> Result<usize, Failure>
    requires { ⟦<Stdin as AsRawFd>⟧.raw_fd from ≡ Some standard_input }
    ensures brought { IfOk result (λ n. n ≤ length block.new) }
    ensures failed { IfErr result (λ e. e ≡ Unread) }
{
    from.read(block).map_err(|_| Failure::Read)
}

// The parlour between lines, the line so far (the front of `text`, `kept` bytes of it), and room for answers. Arrays, and no Vec: the state and
// the line so far never outgrow them, and a Vec can run out of memory, a case that no run of the program has. It is dropped, and never copied,
// compared or printed.
#[derive(Drop)]
struct Lines {
    state: [u8; line::STATE],
    text: [u8; stream::LINE],
    kept: usize,
    out: [u8; BLOCK],
    ghost ready: { Ready state text kept out },
}

impl Lines {
    // Answers the lines that a block ends, and writes their answers as often as the buffer is full, and at the end.
    #[tactic(auto, using(crate::proofs::Turns::end_fits))]
    fn answer_block(&mut self, output: Stdout, block: &[u8]) -> Turn
        ensures { BlockAnswered self.old.state self.old.text self.old.kept block.now self.new.state self.new.text (taken result self.new.kept) }
    {
        let mut rest = block;
        // No `for`: each turn takes as much as `feed` had room for, which is known after it.
        while !rest.is_empty() {
            let fed = stream::feed(
                &mut self.state,
                &mut self.text,
                self.kept,
                rest,
                &mut self.out,
            );
            self.kept = fed.kept;
            rest = &rest[fed.taken..];
            write_to(output, &self.out[..fed.end])?;
        }
        Ok(true) // The line so far goes on.
    }

    // Answers a last line that no newline ended.
    fn answer_rest(&mut self, output: Stdout) -> Turn
        ensures { RestAnswered self.old.state self.old.text self.old.kept self.old.out self.new.state self.new.text self.new.out (taken result self.new.kept) }
    {
        let end = stream::finish(&mut self.state, &self.text, self.kept, &mut self.out);
        write_to(output, &self.out[..end])?;
        Ok(false)
    }

    // Answers what a block of input brought: nothing at the end of the input.
    fn answer_some(&mut self, output: Stdout, block: &[u8]) -> Turn
        ensures { AfterBlock self.old.state self.old.text self.old.kept block.now self.old.out self.new.state self.new.text self.new.out (taken result self.new.kept) }
    {
        if block.is_empty() {
            self.answer_rest(output)
        } else {
            self.answer_block(output, block)
        }
    }

    // Answers what a read put into the input buffer.
    fn answer_read(&mut self, output: Stdout, input: &[u8], got: Result<usize, Failure>) -> Turn
        ensures { ReadAnswered self.old.state self.old.text self.old.kept input.now got self.old.out self.new.state self.new.text self.new.out (taken result self.new.kept) }
    {
        match got {
            Ok(count) => self.answer_some(output, &input[..count.min(input.len())]),
            Err(_) => Err(Failure::Read),
        }
    }

    // Reads a block and answers it. Every answer so far is written before the read, which may wait.
    fn read_block(&mut self, ends: Ends, input: &mut [u8]) -> Turn
        ensures { TurnTaken self.old.state self.old.text self.old.kept self.old.out self.new.state self.new.text input.new self.new.out (taken result self.new.kept) }
    {
        let got = read_from(ends.input, input);
        self.answer_read(ends.output, input, got)
    }

    // A proved loop has to end, and nothing says that the input does: so it counts to a number that no run uses up.
    fn run(&mut self, ends: Ends, input: &mut [u8]) -> Turn
        requires { Start self.old.state self.old.text self.old.out × (self.old.kept ≡ 0) }
        ensures { Ran self.old.text self.new.state self.new.text (taken result self.new.kept) }
    {
        for _ in 0..u64::MAX {
            if !self.read_block(ends, input)? {
                return Ok(false);
            }
        }
        Ok(true)
    }
}

// A read or a write that fails ends the program as the end of the input does: with status 0, and nothing said of it.
fn main(rt: HostRuntime) {
    let ends = Ends {
        input: rt.stdin(),
        output: rt.stdout(),
    };
    let mut lines = Lines {
        state: [0u8; line::STATE],
        text: [0u8; stream::LINE],
        kept: 0,
        out: [0u8; BLOCK],
    };
    let mut input = [0u8; BLOCK];
    let _ = lines.run(ends, &mut input);
}
