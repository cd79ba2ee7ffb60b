// The calls of a head, as C firmware links them. Each is that of `form` on tables stored as the image itself.
#![tactic(auto)]

ghost use Rattle.std.specs.Prelude.{◌≡◌};
ghost use Rattle.head.specs.Calls.{Outcome, fresh_call, milking_call};
ghost use Rattle.head.specs.Heard.{HeardOutcome, heard_call};
ghost use Rattle.head.specs.Settled.{Settled, settled_call};
ghost use Rattle.image.specs.Check.{checked, number_of};
ghost use Rattle.merge.specs.Call.{MeetingOutcome, meeting_call};

use crate::form::Plain;

pub mod form;
pub mod heard;
mod settled;

// The number of the first check that fails, 0 where none does.
#[unsafe(no_mangle)]
pub extern "C" fn wilbryn_check(image: &[u8]) -> u32
    ensures { result ≡ number_of (checked image.now) }
{
    image::number_of(image::check(image))
}

// A fresh table of a parlour of n heads, for the head at a stall.
#[tactic(auto, unfolding(crate::specs::Calls::fresh_call))]
#[unsafe(no_mangle)]
pub extern "C" fn wilbryn_fresh(image: &mut [u8], n: u8, stall: u8) -> u32
    ensures { ◌≡◌ {A = Outcome} (record { answer = result; image = image.new }) (fresh_call image.old n stall) }
{
    form::fresh::<Plain>(image, n, stall)
}

// The current yield becomes a new one.
#[tactic(auto, unfolding(crate::specs::Calls::milking_call))]
#[unsafe(no_mangle)]
pub extern "C" fn wilbryn_milking(image: &mut [u8], given: u16) -> u32
    ensures { ◌≡◌ {A = Outcome} (record { answer = result; image = image.new }) (milking_call image.old given) }
{
    form::milking::<Plain>(image, given)
}

// The heard stalls of a table with their yields, in ranking order.
#[unsafe(no_mangle)]
pub extern "C" fn wilbryn_heard(image: &[u8], records: &mut [u8]) -> u32
    ensures { ◌≡◌ {A = HeardOutcome} (record { answer = result; records = records.new }) (heard_call image.now records.old) }
{
    form::heard::<Plain>(image, records)
}

// For each stall, how many stalls the head knows to have heard its latest of that stall.
#[unsafe(no_mangle)]
pub extern "C" fn wilbryn_settled(image: &[u8], counts: &mut [u8]) -> u32
    ensures { ◌≡◌ {A = Settled} (record { answer = result; counts = counts.new }) (settled_call image.now counts.old) }
{
    form::settled::<Plain>(image, counts)
}

// The label of a meeting, or 256 plus the number of its refusal.
#[unsafe(no_mangle)]
pub extern "C" fn wilbryn_meeting(first: &mut [u8], second: &mut [u8], verdicts: &mut [u8]) -> u32
    ensures { ◌≡◌ {A = MeetingOutcome}
        (record { answer = result; first = first.new; second = second.new; verdicts = verdicts.new })
        (meeting_call first.old second.old verdicts.old) }
{
    merge::meeting::meeting(first, second, verdicts)
}
