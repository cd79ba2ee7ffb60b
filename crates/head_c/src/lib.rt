// The calls of `head` for C, in an archive of their own. Each does what its crate's does, by the same contract. They stand here again, since
// only a static library exports: the C interface needs it.
#![tactic(auto)]

ghost use Rattle.std.specs.Prelude.{◌≡◌};
ghost use Rattle.image.specs.Check.{checked, number_of};
ghost use Rattle.merge.specs.Call.{MeetingOutcome, meeting_call};
ghost use Rattle.head.specs.Calls.{Outcome, fresh_call, milking_call};
ghost use Rattle.head.specs.Heard.{HeardOutcome, heard_call};
ghost use Rattle.head.specs.Settled.{Settled, settled_call};

#[unsafe(no_mangle)]
pub extern "C" fn wilbryn_fresh(image: &mut [u8], n: u8, stall: u8) -> u32
    ensures { ◌≡◌ {A = Outcome} (record { answer = result; image = image.new }) (fresh_call image.old n stall) }
{
    head::wilbryn_fresh(image, n, stall)
}

#[unsafe(no_mangle)]
pub extern "C" fn wilbryn_check(image: &[u8]) -> u32
    ensures { result ≡ number_of (checked image.now) }
{
    head::wilbryn_check(image)
}

#[unsafe(no_mangle)]
pub extern "C" fn wilbryn_milking(image: &mut [u8], given: u16) -> u32
    ensures { ◌≡◌ {A = Outcome} (record { answer = result; image = image.new }) (milking_call image.old given) }
{
    head::wilbryn_milking(image, given)
}

#[unsafe(no_mangle)]
pub extern "C" fn wilbryn_heard(image: &[u8], records: &mut [u8]) -> u32
    ensures { ◌≡◌ {A = HeardOutcome} (record { answer = result; records = records.new }) (heard_call image.now records.old) }
{
    head::wilbryn_heard(image, records)
}

#[unsafe(no_mangle)]
pub extern "C" fn wilbryn_settled(image: &[u8], counts: &mut [u8]) -> u32
    ensures { ◌≡◌ {A = Settled} (record { answer = result; counts = counts.new }) (settled_call image.now counts.old) }
{
    head::wilbryn_settled(image, counts)
}

#[unsafe(no_mangle)]
pub extern "C" fn wilbryn_meeting(first: &mut [u8], second: &mut [u8], verdicts: &mut [u8]) -> u32
    ensures { ◌≡◌ {A = MeetingOutcome}
        (record { answer = result; first = first.new; second = second.new; verdicts = verdicts.new })
        (meeting_call first.old second.old verdicts.old) }
{
    head::wilbryn_meeting(first, second, verdicts)
}
