// The wall panel: the heard list of a table as lines of text. It calls what the tables offer and knows their contracts alone.
#![tactic(auto)]

ghost use Rattle.std.specs.Prelude.{◌≡◌};
ghost use Rattle.panel.specs.Panel.{PanelOutcome, panel_call, packed_panel_call};

use crate::lines::write_panel;
use head::form::{self, Form, Plain};
use image::{Checked, Refusal, STALLS};
use packed::Packed;

mod lines;

// The bytes of a panel: sixteen a line, one more than any line needs.
pub const PANEL_LENGTH: usize = 16 * STALLS;

// The panel of a table, whatever its form: how many bytes of text, or 256 plus the number of the refusal. A number, as the exports that pass it on
// have: specs/ state a call as a record of its answer and the buffer (PanelOutcome), in which a Result would be a second answer.
#[tactic(auto, using(head::proofs::HeardCalls::accepts), unfolding(crate::specs::Panel::panel_from, crate::specs::Panel::panel_length))]
pub fn panel<F: Form>(table: &[u8], text: &mut [u8]) -> u32
    ensures { ◌≡◌ {A = PanelOutcome} (record { answer = result; text = text.new }) (panel_call (F.plain table.now) text.old) }
{
    let c = F::check(table);
    let Checked::Good(h) = c else {
        return Refusal::ABOVE + image::number_of(c);
    };
    if text.len() != PANEL_LENGTH {
        return Refusal::Buffer.answer();
    }
    let used = 3 * usize::from(h.n);
    let mut records = [0u8; 3 * STALLS];
    let count = form::heard::<F>(table, &mut records[..used]);
    // There is no From of a u32 to usize.
    write_panel(&records, count as usize, text)
}

// The panel of a table.
#[unsafe(no_mangle)]
pub extern "C" fn wilbryn_panel(image: &[u8], text: &mut [u8]) -> u32
    ensures { ◌≡◌ {A = PanelOutcome} (record { answer = result; text = text.new }) (panel_call image.now text.old) }
{
    panel::<Plain>(image, text)
}

// The panel of a packed table.
#[tactic(auto, using(crate::proofs::Calls::handed))]
#[unsafe(no_mangle)]
pub extern "C" fn wilbryn_packed_panel(packed: &[u8], text: &mut [u8]) -> u32
    ensures { ◌≡◌ {A = PanelOutcome} (record { answer = result; text = text.new }) (packed_panel_call packed.now text.old) }
{
    panel::<Packed>(packed, text)
}
