// The state between lines: N, then a slot for each stall; a parlour just opened, and a meeting of two of its heads.
// It is a slice whose length the clauses ask for, since `answer` is lent a slice, as it promises.
ghost use Rattle.std.specs.Prelude.{◌≡◌, true, ◌++◌, ◌+◌, ◌≤◌, length, take, drop, IfOk, IfErr};
ghost use Rattle.image.specs.Check.{bad_stall};
ghost use Rattle.image.specs.Layout.{largest, longest};
ghost use Rattle.image.specs.Stalls.{each};
ghost use Rattle.line.specs.Parlour.{state_length, heads_of, fresh_slot, fresh_state};
ghost use Rattle.line.specs.Asked.{IsSlot, MetAt};
ghost use Rattle.image.specs.declared.Refusal.TheVariants.{Stall};
ghost use Rattle.line.specs.declared.refusal.Refusal.TheVariants.{Image};

use crate::refusal::Refusal;
use image::bytes::{bad_stall, clear_from};
use image::{Head, LARGEST, LONGEST, length_of};
use std::ops::Range;

// The bytes of a head's image in the state, by its stall, which is refused where the parlour has no such stall.
pub(crate) fn slot_of(state: &[u8], stall: u8) -> Result<Range<usize>, Refusal>
    requires { (length state.now ≡ state_length) × (2 ≤ heads_of state.now) × (heads_of state.now ≤ largest) }
    ensures found { IfOk result (λ slot. IsSlot state.now stall slot.start slot.end) }
    ensures refused { IfErr result (λ e. (e ≡ Image Stall) × (bad_stall (heads_of state.now) stall ≡ true)) }
{
    let n = state[0];
    if bad_stall(n, stall) {
        return Err(Refusal::Image(image::Refusal::Stall));
    }
    let start = 1 + (usize::from(stall) - 1) * LONGEST;
    let end = start + length_of(usize::from(n));
    Ok(start..end)
}

// The heads whose images start at two places meet. The second's is lent as a copy, in a run as long as an image: `split_at_mut` would lend both
// where they stand, but which stands first is known as it runs, so the call would stand twice, once in each order. No plainer.
pub(crate) fn meet_at(
    state: &mut [u8],
    a: usize,
    b: usize,
    second: &mut [u8],
    verdicts: &mut [u8],
) -> u32
    requires { (a + length second.old ≤ length state.old) × (b + length second.old ≤ length state.old) }
    ensures { MetAt state.old a b (length second.old) verdicts.old result state.new verdicts.new }
{
    let count = second.len();
    second.copy_from_slice(&state[b..b + count]);
    let answer = head::wilbryn_meeting(&mut state[a..a + count], second, verdicts);
    state[b..b + count].copy_from_slice(second);
    answer
}

// A slot, as that of a stall in a parlour of n heads just opened.
#[tactic(auto, using(crate::proofs::Slots::slots))]
fn open_slot(slot: &mut [u8], n: u8, stall: u8)
    requires { length slot.old ≡ longest }
    ensures { slot.new ≡ fresh_slot n stall }
{
    if stall <= n {
        Head::fresh(n, stall).write(slot);
    } else {
        clear_from(slot, 0);
    }
}

// Every slot of a parlour of n heads just opened. (`chunks_exact_mut` and `zip` were tried: once their loan is over a proof knows how long the state
// is, and no byte of it, so that `returns` stayed open.)
fn open_slots(state: &mut [u8], n: u8)
    requires { (length state.old ≡ state_length) × (2 ≤ n) × (n ≤ largest) }
    ensures { state.new ≡ take 1 state.old ++ each largest (fresh_slot n) }
{
    for r in 0..LARGEST {
        let at = 1 + usize::from(r) * LONGEST;
        open_slot(&mut state[at..at + LONGEST], n, r + 1);
    }
}

// A parlour of n heads just opened.
#[tactic(auto, using(crate::proofs::Slots::opened))]
pub(crate) fn open_parlour(state: &mut [u8], n: u8)
    requires { (length state.old ≡ state_length) × (2 ≤ n) × (n ≤ largest) }
    ensures { state.new ≡ fresh_state n }
{
    open_slots(state, n);
    state[0] = n;
}
