// What the program says of a difference.
use crate::compare::Difference;
use crate::history::History;
use crate::outcome::{Hex, front};
use crate::parlour::{Parlour, Step};
use crate::sizes::PANEL;
use crate::telling::{Telling, Told};
use std::alloc::AllocError;

// The meetings of the history, this one included if it counts.
fn say_meetings(text: &mut String, history: &History) -> Result<(), AllocError> {
    write!(text, "  meetings of the history:")?;
    for meeting in history.meetings() {
        write!(text, " {}-{}", meeting.name.first, meeting.name.second)?;
    }
    writeln!(text)
}

fn say_outcomes(text: &mut String, step: &Step) -> Result<(), AllocError> {
    let (wanted, got) = (&step.wanted, &step.got);
    writeln!(
        text,
        "  answer wanted {}, got {}",
        wanted.answer, got.answer
    )?;
    writeln!(text, "  buffer wanted {}", Hex(wanted.run.as_slice()))?;
    writeln!(text, "  buffer got    {}", Hex(got.run.as_slice()))
}

fn say_image(text: &mut String, parlour: &Parlour, head: u8) -> Result<(), AllocError> {
    let wanted = parlour.knowledge(head).image()?;
    writeln!(text, "  image of head {head}")?;
    writeln!(text, "    wanted {}", Hex(wanted.as_slice()))?;
    writeln!(text, "    got    {}", Hex(parlour.heads.run(head)))
}

// What the history says. The numbers of what is settled come with no answer, a panel with no byte behind it.
fn say_wanted(text: &mut String, told: Told) -> Result<(), AllocError> {
    let wanted = told.wanted()?;
    let answer = wanted.answer;
    let run = wanted.run.as_slice();
    match told.telling {
        Telling::List => writeln!(text, "    answer {answer} wanted, {}", Hex(run)),
        Telling::Counts => writeln!(text, "    wanted {}", Hex(run)),
        Telling::Panel => writeln!(
            text,
            "    answer {answer} wanted, {}",
            Hex(front(run, PANEL))
        ),
    }
}

// What the call answers and writes for a buffer of a length.
fn say_got(text: &mut String, told: Told, length: usize) -> Result<(), AllocError> {
    let got = told.got(length)?;
    let run = Hex(got.run.as_slice());
    writeln!(
        text,
        "    buffer {length}: answer {}, got {run}",
        got.answer
    )
}

fn say_telling(text: &mut String, told: Told) -> Result<(), AllocError> {
    writeln!(text, "  {} of head {}", told.telling, told.head)?;
    say_wanted(text, told)?;
    say_got(text, told, told.length())?;
    for other in told.refused_lengths().into_iter().flatten() {
        say_got(text, told, other)?;
    }
    Ok(())
}

// The item, the meetings that led to it, and what was wanted and got.
pub fn text(parlour: &Parlour, step: &Step, difference: Difference) -> Result<String, AllocError> {
    let mut text = String::new(parlour.alloc);
    writeln!(text, "first difference of n = {}", parlour.stalls())?;
    writeln!(text, "  {}", step.item)?;
    say_meetings(&mut text, &parlour.history)?;
    say_outcomes(&mut text, step)?;
    match difference {
        Difference::Image(head) => say_image(&mut text, parlour, head)?,
        Difference::Told(telling, head) => say_telling(&mut text, parlour.told(telling, head))?,
        Difference::Names => {
            writeln!(
                text,
                "  two own rows have different meetings under one name"
            )?
        }
        Difference::Answer | Difference::Verdicts => {}
    }
    Ok(text)
}
