// Every call of wilbryn.h in one archive. Each does what its crate's does, by the same contract. They stand here again, with C's slices and
// numbers, since only a static library exports: the C interface needs it.
#![tactic(auto)]

ghost use Rattle.std.specs.Prelude.{◌≡◌};
ghost use Rattle.image.specs.Check.{checked, number_of};
ghost use Rattle.merge.specs.Call.{MeetingOutcome, meeting_call};
ghost use Rattle.head.specs.Calls.{Outcome, fresh_call, milking_call};
ghost use Rattle.head.specs.Heard.{HeardOutcome, heard_call};
ghost use Rattle.head.specs.Settled.{Settled, settled_call};
ghost use Rattle.packed.specs.Check.{packed_checked};
ghost use Rattle.packed.specs.Calls.{pack_call, unpack_call, packed_fresh_call, packed_milking_call, packed_heard_call, packed_settled_call, packed_meeting_call};
ghost use Rattle.panel.specs.Panel.{PanelOutcome, panel_call, packed_panel_call};

#[unsafe(no_mangle)]
pub extern "C" fn wilbryn_fresh(image: &mut [u8], n: u8, stall: u8) -> u32
    ensures { ◌≡◌ {A = Outcome} (record { answer = result; image = image.new }) (fresh_call image.old n stall) }
{
    head::wilbryn_fresh(image, n, stall)
}

#[unsafe(no_mangle)]
pub extern "C" fn wilbryn_check(image: &[u8]) -> u32
    ensures { result ≡ number_of (checked image.now) }
{
    head::wilbryn_check(image)
}

#[unsafe(no_mangle)]
pub extern "C" fn wilbryn_milking(image: &mut [u8], given: u16) -> u32
    ensures { ◌≡◌ {A = Outcome} (record { answer = result; image = image.new }) (milking_call image.old given) }
{
    head::wilbryn_milking(image, given)
}

#[unsafe(no_mangle)]
pub extern "C" fn wilbryn_heard(image: &[u8], records: &mut [u8]) -> u32
    ensures { ◌≡◌ {A = HeardOutcome} (record { answer = result; records = records.new }) (heard_call image.now records.old) }
{
    head::wilbryn_heard(image, records)
}

#[unsafe(no_mangle)]
pub extern "C" fn wilbryn_settled(image: &[u8], counts: &mut [u8]) -> u32
    ensures { ◌≡◌ {A = Settled} (record { answer = result; counts = counts.new }) (settled_call image.now counts.old) }
{
    head::wilbryn_settled(image, counts)
}

#[unsafe(no_mangle)]
pub extern "C" fn wilbryn_meeting(first: &mut [u8], second: &mut [u8], verdicts: &mut [u8]) -> u32
    ensures { ◌≡◌ {A = MeetingOutcome}
        (record { answer = result; first = first.new; second = second.new; verdicts = verdicts.new })
        (meeting_call first.old second.old verdicts.old) }
{
    head::wilbryn_meeting(first, second, verdicts)
}

#[unsafe(no_mangle)]
pub extern "C" fn wilbryn_pack(image: &[u8], packed: &mut [u8]) -> u32
    ensures { ◌≡◌ {A = Outcome} (record { answer = result; image = packed.new }) (pack_call image.now packed.old) }
{
    packed::wilbryn_pack(image, packed)
}

#[unsafe(no_mangle)]
pub extern "C" fn wilbryn_unpack(packed: &[u8], image: &mut [u8]) -> u32
    ensures { ◌≡◌ {A = Outcome} (record { answer = result; image = image.new }) (unpack_call packed.now image.old) }
{
    packed::wilbryn_unpack(packed, image)
}

#[unsafe(no_mangle)]
pub extern "C" fn wilbryn_packed_fresh(packed: &mut [u8], n: u8, stall: u8) -> u32
    ensures { ◌≡◌ {A = Outcome} (record { answer = result; image = packed.new }) (packed_fresh_call packed.old n stall) }
{
    packed::wilbryn_packed_fresh(packed, n, stall)
}

#[unsafe(no_mangle)]
pub extern "C" fn wilbryn_packed_check(packed: &[u8]) -> u32
    ensures { result ≡ number_of (packed_checked packed.now) }
{
    packed::wilbryn_packed_check(packed)
}

#[unsafe(no_mangle)]
pub extern "C" fn wilbryn_packed_milking(packed: &mut [u8], given: u16) -> u32
    ensures { ◌≡◌ {A = Outcome} (record { answer = result; image = packed.new }) (packed_milking_call packed.old given) }
{
    packed::wilbryn_packed_milking(packed, given)
}

#[unsafe(no_mangle)]
pub extern "C" fn wilbryn_packed_heard(packed: &[u8], records: &mut [u8]) -> u32
    ensures { ◌≡◌ {A = HeardOutcome} (record { answer = result; records = records.new }) (packed_heard_call packed.now records.old) }
{
    packed::wilbryn_packed_heard(packed, records)
}

#[unsafe(no_mangle)]
pub extern "C" fn wilbryn_packed_settled(packed: &[u8], counts: &mut [u8]) -> u32
    ensures { ◌≡◌ {A = Settled} (record { answer = result; counts = counts.new }) (packed_settled_call packed.now counts.old) }
{
    packed::wilbryn_packed_settled(packed, counts)
}

#[unsafe(no_mangle)]
pub extern "C" fn wilbryn_packed_meeting(
    first: &mut [u8],
    second: &mut [u8],
    verdicts: &mut [u8],
) -> u32
    ensures { ◌≡◌ {A = MeetingOutcome}
        (record { answer = result; first = first.new; second = second.new; verdicts = verdicts.new })
        (packed_meeting_call first.old second.old verdicts.old) }
{
    packed::wilbryn_packed_meeting(first, second, verdicts)
}

#[unsafe(no_mangle)]
pub extern "C" fn wilbryn_panel(image: &[u8], text: &mut [u8]) -> u32
    ensures { ◌≡◌ {A = PanelOutcome} (record { answer = result; text = text.new }) (panel_call image.now text.old) }
{
    panel::wilbryn_panel(image, text)
}

#[unsafe(no_mangle)]
pub extern "C" fn wilbryn_packed_panel(packed: &[u8], text: &mut [u8]) -> u32
    ensures { ◌≡◌ {A = PanelOutcome} (record { answer = result; text = text.new }) (packed_panel_call packed.now text.old) }
{
    panel::wilbryn_packed_panel(packed, text)
}
