// One table as bytes: its forms in the code, its lengths, and its check.
#![tactic(auto)]

ghost use Rattle.std.specs.Prelude.{◌≡◌, ◌+◌, ◌≤◌, length, replicate};
ghost use Rattle.image.specs.Layout.{label_limit, largest, length_of, name_from};
ghost use Rattle.image.specs.Fresh.{fresh_in};
ghost use Rattle.image.specs.Frame.{Sized, Framed};
ghost use Rattle.image.specs.Refusal.{number};
ghost use Rattle.image.specs.Check.{check_body, checked, number_of};

pub mod bytes;
pub mod marks;
mod names;
pub mod orders;
pub mod rows;
mod words;
pub mod yields;

// The most heads that a parlour has, the bytes of a row of names of so many, and of their image. (Cast: a constant calls no From.)
pub const LARGEST: u8 = 16;

pub const STALLS: usize = LARGEST as usize;

pub const ROW: usize = 2 * STALLS;

pub const LONGEST: usize = 4 + 2 * STALLS * STALLS + 4 * STALLS;

// The meeting with a partner that has a label.
#[derive(Clone, Copy, Debug, PartialEq, Eq)]
pub struct Meet {
    pub partner: u8,
    pub label: u8,
}

// A name is either none, or a partner with a label. Not an Option: a rule of the project names this enum, and the record that holds it.
#[derive(Clone, Copy, Debug, PartialEq, Eq)]
pub enum Name {
    Never,
    With(Meet),
}

// A record of a row, as many as there are stalls. An array of it goes by value: a rule of the project.
#[derive(Clone, Copy, Debug, PartialEq, Eq)]
pub struct Entry {
    pub name: Name,
}

// What an image begins with. Not one type with Head below, which has the same two fields: the check answers this one, and docs/DECISIONS.md names
// Head, by value.
#[derive(Clone, Copy, Debug, PartialEq, Eq)]
pub struct Header {
    pub n: u8,
    pub stall: u8,
}

// Why a call is refused. The numbers stand in the interface for C, and here.
#[derive(Clone, Copy, Debug, PartialEq, Eq)]
pub enum Refusal {
    Count = 1,
    Length = 2,
    Stall = 3,
    Yield = 4,
    Name = 5,
    Mark = 6,
    Strangers = 7,
    Buffer = 8,
    Verdict = 9,
}

impl Refusal {
    // The number that a call answers. A cast: std has no From of an enum's number.
    #[tactic(auto, unfolding(crate::specs::Refusal::number))]
    pub fn number(self) -> u32
        ensures { result ≡ number self }
    {
        self as u32
    }

    // What a call adds to the number of a refusal where its other answers are numbers below this one.
    pub const ABOVE: u32 = 256;

    // The answer of such a call.
    pub fn answer(self) -> u32
        ensures { result ≡ 256 + number self }
    {
        Refusal::ABOVE + self.number()
    }
}

// The answer of a check: the header, or the first number that applies. Not a Result: a rule of the project names this enum, which callers take
// apart by let .. else.
#[derive(Clone, Copy, Debug, PartialEq, Eq)]
pub enum Checked {
    Good(Header),
    Refused(u32),
}

// The image of a head whose N, stall and length are right, lent: its bytes, and the two of its numbers that all that reads it goes by. Functions
// that only count, in words or places, take the numbers that they need: with `n ≤ largest` alone a type of its own would be no plainer, a field and
// a literal more at each call. Functions that read bytes at a place take the slice: behind `&Image` its bytes have no bound.
#[derive(Clone, Copy, Debug, PartialEq, Eq)]
pub struct Image<'a> {
    pub bytes: &'a [u8],
    pub n: u8,
    pub own: u8,
    pub ghost framed: { Framed bytes.now n own },
}

// The table of a head that has heard nobody: N and its stall say all of it. (Not a Header: see there.)
#[derive(Clone, Copy, Debug, PartialEq, Eq)]
pub struct Head {
    pub n: u8,
    pub stall: u8,
}

// Image lengths by the number of stalls, a table by a rule of the project; in two bytes each, since it is laid out anew at each look. (Cast: a
// constant calls no From.)
const LENGTHS: [u16; STALLS + 1] = [
    0,
    0,
    18,
    31,
    48,
    69,
    94,
    123,
    156,
    202,
    244,
    290,
    340,
    394,
    452,
    514,
    LONGEST as u16,
];

impl Head {
    pub const YIELD_LIMIT: u16 = 999;

    // The yield of a head that was not milked, and of a stall never heard.
    pub const NO_YIELD: u16 = 0xffff;

    #[tactic(auto, unfolding(crate::specs::Layout::label_limit))]
    pub fn label_limit(n: u8) -> usize
        ensures { result ≡ label_limit n }
    {
        (4 * usize::from(n)).saturating_sub(2)
    }

    pub fn fresh(n: u8, stall: u8) -> Head
        ensures { result ≡ record { n = n; stall = stall } }
    {
        Head { n, stall }
    }

    // Its image at the front of a run, then zeros; zeros alone where it has no room, or n is that of no parlour.
    #[tactic(auto, using(crate::proofs::Zeros::cleared_all, crate::proofs::FreshTable::written), unfolding(crate::specs::Fresh::fresh_in))]
    pub fn write(self, image: &mut [u8])
        ensures { image.new ≡ fresh_in (length image.old) self.n self.stall }
    {
        bytes::clear_from(image, 0);
        let long = length_of(usize::from(self.n));
        if bytes::is_count(self.n) && long <= image.len() {
            self.put(&mut image[..long]);
        }
    }

    // Its image over as many zeros.
    #[tactic(auto, using(crate::proofs::FreshTable::written))]
    fn put(self, image: &mut [u8])
        requires { (2 ≤ self.n) × (self.n ≤ largest) × (length image.old ≡ length_of self.n) × (image.old ≡ replicate (length image.old) 0) }
        ensures { image.new ≡ fresh_in (length image.old) self.n self.stall }
    {
        let n = usize::from(self.n);
        image[0] = self.n;
        image[1] = self.stall;
        yields::put_no_yields(image, 2, 1);
        yields::put_no_yields(image, bytes::yields_place(image.len(), n), n);
    }
}

// The length of an image of n stalls, 0 where n is that of no parlour: not an Option, since `length_of` of specs/ is a number, and callers compare it.
// By an index: the check calls it, and firmware/products follows no `get`.
#[tactic(auto, using(crate::proofs::Lengths::rule))]
pub fn length_of(n: usize) -> usize
    ensures { result ≡ length_of n }
{
    if n <= STALLS {
        usize::from(LENGTHS[n])
    } else {
        0
    }
}

// Two bytes as a name. A function, and no From: contracts of other crates are over the definition of its name.
#[tactic(auto, unfolding(crate::specs::Layout::name_from))]
pub fn name_from(partner: u8, label: u8) -> Name
    ensures { result ≡ name_from partner label }
{
    if partner == 0 {
        Name::Never
    } else {
        Name::With(Meet { partner, label })
    }
}

// The check of a table: the first number that applies.
#[tactic(auto, unfolding(crate::specs::Check::checked, crate::specs::Check::bad_count, crate::specs::Check::bad_length))]
pub fn check(image: &[u8]) -> Checked
    ensures { result ≡ checked image.now }
{
    let &[n, ..] = image else {
        return Checked::Refused(Refusal::Count.number());
    };
    if bytes::bad_count(n) {
        return Checked::Refused(Refusal::Count.number());
    }
    if image.len() != length_of(usize::from(n)) {
        return Checked::Refused(Refusal::Length.number());
    }
    check_body(image, n, image[1])
}

// The checks 3 to 6 of an image of the right length.
#[tactic(auto, unfolding(crate::specs::Check::check_body))]
fn check_body(image: &[u8], n: u8, own: u8) -> Checked
    requires { Sized image.now n }
    ensures { result ≡ check_body image.now n own }
{
    if bytes::bad_stall(n, own) {
        return Checked::Refused(Refusal::Stall.number());
    }
    if yields::bad_yields(image, usize::from(n)) {
        return Checked::Refused(Refusal::Yield.number());
    }
    let x = Image {
        bytes: image,
        n,
        own,
    };
    let latests = names::own_names(&x);
    if names::bad_names(&x, latests) {
        return Checked::Refused(Refusal::Name.number());
    }
    if marks::bad_marks(&x, latests.set) {
        return Checked::Refused(Refusal::Mark.number());
    }
    Checked::Good(Header { n, stall: own })
}

// The number of an answer: 0 for a good image. A function, since exports of three crates answer by it, and their contracts are over the definition
// of its name. Calls that answer 256 and more for a refusal add it where they take the check apart: a sum, and a function for it would be a public
// one more.
pub fn number_of(c: Checked) -> u32
    ensures { result ≡ number_of c }
{
    match c {
        Checked::Good(_) => 0,
        Checked::Refused(number) => number,
    }
}
