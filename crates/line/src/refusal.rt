// Why a line is refused, and the number that its answer gives.
ghost use Rattle.std.specs.Prelude.{◌≡◌, ◌-◌, ◌<◌, ◌≤◌, IfOk, IfErr, OnOk};
ghost use Rattle.line.specs.Refused.{number_of};
ghost use Rattle.line.specs.declared.refusal.Refusal.TheVariants.{Call};

// A refusal of a head that is told before the head is asked, the two of lines alone, and what a head's call answered.
#[derive(Clone, Copy, Debug, PartialEq, Eq)]
pub(crate) enum Refusal {
    Image(image::Refusal),
    // The line is no frame.
    Line,
    // A second opening, or another frame before the first.
    Opening,
    // What a call of a head answered stays a number, as C reads it: its contract says which number, and not that it is that of an
    // `image::Refusal`, so TryFrom would leave a case to answer that is not there.
    Call(u8),
}

impl Refusal {
    #[tactic(auto, unfolding(image::specs::Refusal::number))]
    pub(crate) fn number(self) -> u8
        ensures { result ≡ number_of self }
    {
        match self {
            // A cast: std has no From of an enum's number.
            Refusal::Image(refusal) => refusal as u8,
            Refusal::Line => 10,
            Refusal::Opening => 11,
            Refusal::Call(number) => number,
        }
    }
}

// The two kinds of answer of a head's calls, numbers as C has them. Where a cast stays its number is below 256, by the contract: TryFrom would
// leave a case to answer that is not there.

// A call that answers 0, or the number of its refusal.
pub(crate) fn accepted(number: u32) -> Result<(), Refusal>
    requires { number < 256 }
    ensures zero { OnOk result (number ≡ 0) }
    ensures refused { IfErr result (λ e. (e ≡ Call number) × (0 < number)) }
{
    match number {
        0 => Ok(()),
        _ => Err(Refusal::Call(number as u8)),
    }
}

// A call that answers a number below 256, or 256 plus the number of its refusal.
pub(crate) fn answered(answer: u32) -> Result<u8, Refusal>
    requires { answer < 512 }
    ensures told { IfOk result (λ n. (n ≡ answer) × (answer < 256)) }
    ensures refused { IfErr result (λ e. (e ≡ Call (answer - 256)) × (256 ≤ answer)) }
{
    u8::try_from(answer).map_err(|_| Refusal::Call((answer - image::Refusal::ABOVE) as u8))
}
