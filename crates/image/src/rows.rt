// Rows as records, each of which holds a name.
ghost use Rattle.std.specs.Prelude.{◌≡◌, ◌+◌, ◌*◌, ◌≤◌, length};
ghost use Rattle.image.specs.Layout.{largest};
ghost use Rattle.image.specs.Row.{is_never, tabulate, entry_at, own_row};

use crate::bytes::row_place;
use crate::{Entry, Name, STALLS, name_from};

// The row of a head that knows of no meeting, and what stands behind the last stall of a row.
const NOBODY: [Entry; STALLS] = [Entry { name: Name::Never }; STALLS];

// A name is none. A function, since contracts of other crates are over the definition of its name, and docs/ name it.
pub fn is_never(name: Name) -> bool
    ensures { result ≡ is_never name }
{
    name == Name::Never
}

// The row that starts at a place. The image by an index: tried with a zip of the entries and chunks_exact(2), what the row holds in the end stayed open.
fn row_at(image: &[u8], n: usize, at: usize) -> [Entry; STALLS]
    requires { (n ≤ largest) × (at + n * 2 ≤ length image.now) }
    ensures { result ≡ tabulate largest (entry_at image.now n at) }
{
    let mut row = NOBODY;
    for (c, entry) in row[..n].iter_mut().enumerate() {
        let place = at + 2 * c;
        *entry = Entry {
            name: name_from(image[place], image[place + 1]),
        };
    }
    row
}

// The own row of a table.
#[tactic(auto, unfolding(crate::specs::Row::own_row, crate::specs::Row::tabulate))]
pub fn own_row(image: &[u8], n: u8, own: u8) -> [Entry; STALLS]
    ensures { result ≡ own_row image.now n own }
{
    let m = usize::from(n);
    let at = row_place(n, own);
    if STALLS < m || image.len() < at + 2 * m {
        NOBODY
    } else {
        row_at(image, m, at)
    }
}
