// The calls of `panel` for C, in an archive of their own. Each does what its crate's does, by the same contract. They stand here again, since
// only a static library exports: the C interface needs it.
#![tactic(auto)]

ghost use Rattle.std.specs.Prelude.{◌≡◌};
ghost use Rattle.panel.specs.Panel.{PanelOutcome, panel_call, packed_panel_call};

#[unsafe(no_mangle)]
pub extern "C" fn wilbryn_panel(image: &[u8], text: &mut [u8]) -> u32
    ensures { ◌≡◌ {A = PanelOutcome} (record { answer = result; text = text.new }) (panel_call image.now text.old) }
{
    panel::wilbryn_panel(image, text)
}

#[unsafe(no_mangle)]
pub extern "C" fn wilbryn_packed_panel(packed: &[u8], text: &mut [u8]) -> u32
    ensures { ◌≡◌ {A = PanelOutcome} (record { answer = result; text = text.new }) (packed_panel_call packed.now text.old) }
{
    panel::wilbryn_packed_panel(packed, text)
}
