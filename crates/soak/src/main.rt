// Long pseudo-random lists of milkings and meetings for every size of a parlour, through the calls of a head and
// through a history program that is written from the documents alone and shares neither the calls' code nor the sort
// that they use. Prints for each size how many items there were, and how many of them counted or were refused; then,
// of the head that each item names, how many records of its heard list stood elsewhere than at their stall's number,
// how many of its numbers of what is settled were n, and how many characters its panel had; then how many lists
// differed.
#![tactic(auto)]

mod compare;
mod heads;
mod heard;
mod history;
mod item;
mod knowledge;
mod outcome;
mod parlour;
mod random;
mod report;
mod settled;
mod sizes;
mod table;
mod tally;
mod telling;
mod text;

use compare::Stop;
use item::{Item, Way};
use parlour::Parlour;
use random::Random;
use sizes::{ITEMS, MOST};
use std::alloc::{AllocError, Global};
use tally::{Tally, say_number};

// The lists of each size: each way comes equally often.
const LISTS: usize = 120;

// One item both ways, and whether both agree. The first difference of a size is printed. Here and below a text
// that cannot be written is lost, and the run goes on: the exit status says nothing of it.
fn step(
    rt: &impl Print,
    parlour: &mut Parlour,
    item: Item,
    is_last: bool,
    tally: &mut Tally,
) -> Result<bool, AllocError> {
    let step = parlour.step(item)?;
    tally.note(parlour, &step)?;
    match parlour.compare(&step, is_last) {
        Ok(()) => Ok(true),
        Err(Stop::Memory(error)) => Err(error),
        Err(Stop::Differs(difference)) => {
            if tally.differences == 0 {
                print!(rt; "{}", report::text(parlour, &step, difference)?).ok();
            }
            tally.note_difference();
            Ok(false)
        }
    }
}

// One list from fresh images. It ends at its first difference, since later ones would only follow.
fn run_list(
    rt: &impl Print,
    alloc: Global,
    random: &mut Random,
    n: u8,
    way: Way,
    tally: &mut Tally,
) -> Result<(), AllocError> {
    let Some(mut parlour) = Parlour::fresh(alloc, n)? else {
        tally.note_difference();
        println!(rt; "a fresh table is refused").ok();
        return Ok(());
    };
    for left in (0..random.below(ITEMS)).rev() {
        let item = Item::draw(random, &parlour.history, way);
        if !step(rt, &mut parlour, item, left == 0, tally)? {
            break;
        }
    }
    Ok(())
}

fn run_lists(
    rt: &impl Print,
    alloc: Global,
    random: &mut Random,
    n: u8,
) -> Result<Tally, AllocError> {
    let mut tally = Tally::default();
    for &way in Way::ALL.iter().cycle().take(LISTS) {
        run_list(rt, alloc, random, n, way, &mut tally)?;
    }
    Ok(tally)
}

// The cast widens: From has none from a length.
fn say_tally(rt: &impl Print, n: u8, tally: &Tally) {
    say_number(rt, "n = ", u64::from(n));
    say_number(rt, ": ", LISTS as u64);
    tally.say(rt);
}

fn main(rt: HostRuntime) -> Result<(), AllocError> {
    let mut random = Random::new(20260701);
    for n in 2..=MOST {
        let tally = run_lists(&rt, rt.alloc(), &mut random, n)?;
        say_tally(&rt, n, &tally);
    }
    Ok(())
}
