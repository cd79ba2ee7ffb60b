// A name in one byte, partner minus 1 in the upper three bits and label in the lower five; and in two. Columns count from 0 here.
ghost use Rattle.std.specs.Prelude.{◌≡◌, suc, ◌%◌, ◌<◌};
ghost use Rattle.image.specs.Layout.{largest, name_from};
ghost use Rattle.image.specs.Encode.{name_bytes};
ghost use Rattle.merge.specs.Body.{pair_bytes};
ghost use Rattle.packed.specs.Form.{name_byte, name_of};

use merge::pairs::Pair;

// The byte of a name, of which only the lower eight bits count where two bytes are no name of an accepted image.
#[tactic(auto, unfolding(crate::specs::Form::name_byte, image::specs::Layout::name_from))]
pub(crate) fn one_byte(column: usize, partner: u8, label: u8) -> u8
    requires { column < largest }
    ensures { result ≡ name_byte (suc column) (name_from partner label) % 256 }
{
    if partner == 0 {
        // The lower eight bits, which no From takes. Columns count as the places of a row do: as bytes each would be widened for its place.
        return ((column * 32) % 256) as u8;
    }
    (partner - 1).wrapping_mul(32).wrapping_add(label)
}

// The two bytes of a name.
#[tactic(auto, unfolding(crate::specs::Form::name_byte, crate::specs::Form::name_of))]
pub(crate) fn two_bytes(column: usize, byte: u8) -> Pair
    requires { column < largest }
    ensures { pair_bytes result ≡ name_bytes (name_of (suc column) byte) }
{
    if usize::from(byte) == 32 * column {
        return Pair { high: 0, low: 0 };
    }
    Pair {
        high: (byte >> 5) + 1,
        low: byte & 31,
    }
}
