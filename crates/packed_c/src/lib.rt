// The calls of `packed` for C, in an archive of their own. Each does what its crate's does, by the same contract. They stand here again, since
// only a static library exports: the C interface needs it.
#![tactic(auto)]

ghost use Rattle.std.specs.Prelude.{◌≡◌};
ghost use Rattle.image.specs.Check.{number_of};
ghost use Rattle.merge.specs.Call.{MeetingOutcome};
ghost use Rattle.head.specs.Calls.{Outcome};
ghost use Rattle.head.specs.Heard.{HeardOutcome};
ghost use Rattle.head.specs.Settled.{Settled};
ghost use Rattle.packed.specs.Check.{packed_checked};
ghost use Rattle.packed.specs.Calls.{pack_call, unpack_call, packed_fresh_call, packed_milking_call, packed_heard_call, packed_settled_call, packed_meeting_call};

#[unsafe(no_mangle)]
pub extern "C" fn wilbryn_pack(image: &[u8], packed: &mut [u8]) -> u32
    ensures { ◌≡◌ {A = Outcome} (record { answer = result; image = packed.new }) (pack_call image.now packed.old) }
{
    packed::wilbryn_pack(image, packed)
}

#[unsafe(no_mangle)]
pub extern "C" fn wilbryn_unpack(packed: &[u8], image: &mut [u8]) -> u32
    ensures { ◌≡◌ {A = Outcome} (record { answer = result; image = image.new }) (unpack_call packed.now image.old) }
{
    packed::wilbryn_unpack(packed, image)
}

#[unsafe(no_mangle)]
pub extern "C" fn wilbryn_packed_fresh(packed: &mut [u8], n: u8, stall: u8) -> u32
    ensures { ◌≡◌ {A = Outcome} (record { answer = result; image = packed.new }) (packed_fresh_call packed.old n stall) }
{
    packed::wilbryn_packed_fresh(packed, n, stall)
}

#[unsafe(no_mangle)]
pub extern "C" fn wilbryn_packed_check(packed: &[u8]) -> u32
    ensures { result ≡ number_of (packed_checked packed.now) }
{
    packed::wilbryn_packed_check(packed)
}

#[unsafe(no_mangle)]
pub extern "C" fn wilbryn_packed_milking(packed: &mut [u8], given: u16) -> u32
    ensures { ◌≡◌ {A = Outcome} (record { answer = result; image = packed.new }) (packed_milking_call packed.old given) }
{
    packed::wilbryn_packed_milking(packed, given)
}

#[unsafe(no_mangle)]
pub extern "C" fn wilbryn_packed_heard(packed: &[u8], records: &mut [u8]) -> u32
    ensures { ◌≡◌ {A = HeardOutcome} (record { answer = result; records = records.new }) (packed_heard_call packed.now records.old) }
{
    packed::wilbryn_packed_heard(packed, records)
}

#[unsafe(no_mangle)]
pub extern "C" fn wilbryn_packed_settled(packed: &[u8], counts: &mut [u8]) -> u32
    ensures { ◌≡◌ {A = Settled} (record { answer = result; counts = counts.new }) (packed_settled_call packed.now counts.old) }
{
    packed::wilbryn_packed_settled(packed, counts)
}

#[unsafe(no_mangle)]
pub extern "C" fn wilbryn_packed_meeting(
    first: &mut [u8],
    second: &mut [u8],
    verdicts: &mut [u8],
) -> u32
    ensures { ◌≡◌ {A = MeetingOutcome}
        (record { answer = result; first = first.new; second = second.new; verdicts = verdicts.new })
        (packed_meeting_call first.old second.old verdicts.old) }
{
    packed::wilbryn_packed_meeting(first, second, verdicts)
}
