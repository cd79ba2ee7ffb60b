// A meeting of two images: what is known, the verdicts, the label, and what both hold afterwards, built by value and then written.
#![tactic(auto)]

ghost use Rattle.std.specs.Prelude.{◌≡◌};

use image::Image;

pub mod known;
pub mod label;
pub mod meeting;
pub mod orders;
pub mod pairs;
pub mod rows;
pub mod stalls;
pub mod write;
pub mod yields;

// Two heads of one parlour that meet, as what is read.
#[derive(Clone, Copy, Debug, PartialEq, Eq)]
pub struct Both<'a> {
    pub first: Image<'a>,
    pub second: Image<'a>,
    pub ghost one_size: { first.n ≡ second.n },
}

// One column of an own row, seen against the other own row: the other names its meeting too, it has a name, and the other has the same one there.
#[derive(Clone, Copy, Debug, PartialEq, Eq)]
pub struct Seen {
    pub common: bool,
    pub heard: bool,
    pub same: bool,
}

// All columns of an own row, as sets of stalls. `Seen` and this are two types: `Views` (specs) is said of this one, and for the other see `view` (known.rt).
#[derive(Clone, Copy, Debug, PartialEq, Eq)]
pub struct View {
    pub common: u64,
    pub heard: u64,
    pub same: u64,
}

// Stalls by verdict: 1, 2, and 9; and those that the head they come from has heard.
#[derive(Clone, Copy, Debug, PartialEq, Eq)]
pub struct Decided {
    pub one: u64,
    pub two: u64,
    pub nine: u64,
    pub heard: u64,
}

// Stalls by who has them, as sets: the two that met; of the others those that the first has, that the second has, and that the second alone has; and all that are heard afterwards.
#[derive(Clone, Copy, Debug, PartialEq, Eq)]
pub struct Sets {
    pub pair: u64,
    pub first: u64,
    pub second: u64,
    pub alone: u64,
    pub heard: u64,
}
