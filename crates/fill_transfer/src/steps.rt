// What a step does with the number at a location, by its transfer function: from the numbers that its parts leave to the number after it, and in
// `bounds` the most that each may be. Numbers are below 2^63, so that nothing wraps.
pub mod bounds;

ghost use Rattle.std.specs.Prelude.{◌≡◌, ◌<◌};
ghost use Rattle.fill_theory.specs.Pass.{apply};
ghost use Rattle.fill_transfer.specs.AfterSteps.{part_pre, after_unary, after_binary, second_pre};

use crate::taking;
use fill_theory::{BinaryTransfer, Effect, UnaryTransfer};

// The number after a step, from the number that its parts leave; none where the step takes too much.
#[tactic(auto, unfolding(fill_theory::specs::Pass::apply, fill_theory::specs::Pass::forth))]
pub fn apply(effect: Effect, before: u64) -> Option<u64>
    requires { before < 9223372036854775808 }
    ensures { result ≡ apply effect before }
{
    let takes = u64::from(effect.takes);
    let there = before + u64::from(effect.gives);
    let can = effect.lends <= takes && takes + u64::from(effect.needs) <= there;
    if can { Some(there - takes) } else { None }
}

// The number before the part of a step whose post may be at most `cap`: a loop starts its part with what it ends with.
#[tactic(auto, unfolding(crate::specs::AfterSteps::part_pre))]
pub fn part_pre(transfer: UnaryTransfer, pre: u64, cap: u64) -> u64
    ensures { result ≡ part_pre transfer pre cap }
{
    match transfer {
        UnaryTransfer::Loop => pre.min(cap),
        UnaryTransfer::After(_) | UnaryTransfer::Call(_, _) => pre,
    }
}

// The number after a step whose one part starts with `before` and ends with `first`. A loop keeps what its part started with, if the
// part leaves that much. A call wants an exact number.
#[tactic(auto, unfolding(crate::specs::AfterSteps::after_unary))]
pub fn after_unary(transfer: UnaryTransfer, before: u64, first: u64) -> Option<u64>
    requires { first < 9223372036854775808 }
    ensures { result ≡ after_unary transfer before first }
{
    match transfer {
        UnaryTransfer::After(effect) => apply(effect, first),
        UnaryTransfer::Loop => (before <= first).then_some(before),
        UnaryTransfer::Call(wanted, left) => (first == wanted).then_some(left),
    }
}

// The number before the second part: what the first leaves; for a branch the same as before the first; for a fork its start.
#[tactic(auto, unfolding(crate::specs::AfterSteps::second_pre))]
pub fn second_pre(transfer: BinaryTransfer, pre: u64, first: u64) -> u64
    ensures { result ≡ second_pre transfer pre first }
{
    match transfer {
        BinaryTransfer::InTurn(_) => first,
        BinaryTransfer::Branch => pre,
        BinaryTransfer::Fork(start, _) => u64::from(start),
    }
}

// The number after a step whose parts end with `first` and `last`, if it may be at most `cap`. A fork takes the start of its second part from the first, if the
// second leaves what is due.
#[tactic(auto, unfolding(crate::specs::AfterSteps::after_binary))]
pub fn after_binary(transfer: BinaryTransfer, cap: u64, first: u64, last: u64) -> Option<u64>
    requires { (first < 9223372036854775808) × (last < 9223372036854775808) }
    ensures { result ≡ after_binary transfer cap first last }
{
    match transfer {
        BinaryTransfer::InTurn(effect) => apply(effect, last),
        BinaryTransfer::Branch => Some(cap.min(first.min(last))),
        BinaryTransfer::Fork(start, due) => {
            if u64::from(due) <= last {
                apply(taking(start), first)
            } else {
                None
            }
        }
    }
}
