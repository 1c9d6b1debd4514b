// The arithmetic of the bounds: from the most that the post of a step may be to those of its parts, and from what its parts can start
// with to what it can.
ghost use Rattle.std.specs.Prelude.{◌≡◌, ◌<◌};
ghost use Rattle.fill_theory.specs.Pass.{forth, back};
ghost use Rattle.fill_transfer.specs.Bounds.{part_upper_bound, first_upper_bound, last_upper_bound, unary_ceiling, binary_ceiling, binary_attainable};

use crate::taking;
use fill_theory::{BinaryTransfer, Effect, UnaryTransfer};

// No bound: more than any post can be.
pub const TOP: u64 = 4611686018427387904;

// The number after a step, with no test.
#[tactic(auto, unfolding(fill_theory::specs::Pass::forth))]
pub fn forth(effect: Effect, before: u64) -> u64
    requires { before < 9223372036854775808 }
    ensures { result ≡ forth effect before }
{
    (before + u64::from(effect.gives)).saturating_sub(u64::from(effect.takes))
}

// The number before a step that leaves c.
#[tactic(auto, unfolding(fill_theory::specs::Pass::back))]
pub fn back(effect: Effect, c: u64) -> u64
    requires { c < 9223372036854775808 }
    ensures { result ≡ back effect c }
{
    (c + u64::from(effect.takes)).saturating_sub(u64::from(effect.gives))
}

// The most that the part of a step may leave, if the step may leave at most c.
#[tactic(auto, unfolding(crate::specs::Bounds::part_upper_bound, crate::specs::Bounds::top))]
pub fn part_upper_bound(transfer: UnaryTransfer, c: u64) -> u64
    requires { c < 9223372036854775808 }
    ensures { result ≡ part_upper_bound transfer c }
{
    match transfer {
        UnaryTransfer::After(effect) => back(effect, c),
        UnaryTransfer::Loop => TOP,
        UnaryTransfer::Call(wanted, _) => wanted,
    }
}

// The most that the second part may leave.
#[tactic(auto, unfolding(crate::specs::Bounds::last_upper_bound, crate::specs::Bounds::top))]
pub fn last_upper_bound(transfer: BinaryTransfer, c: u64) -> u64
    requires { c < 9223372036854775808 }
    ensures { result ≡ last_upper_bound transfer c }
{
    match transfer {
        BinaryTransfer::InTurn(effect) => back(effect, c),
        BinaryTransfer::Branch | BinaryTransfer::Fork(_, _) => TOP,
    }
}

// The most that the first part may leave, if the second may start with at most `last`.
#[tactic(auto, unfolding(crate::specs::Bounds::first_upper_bound, crate::specs::Bounds::top))]
pub fn first_upper_bound(transfer: BinaryTransfer, c: u64, last: u64) -> u64
    requires { c < 9223372036854775808 }
    ensures { result ≡ first_upper_bound transfer c last }
{
    match transfer {
        BinaryTransfer::InTurn(_) => last,
        BinaryTransfer::Branch => TOP,
        BinaryTransfer::Fork(start, _) => back(taking(start), c),
    }
}

// The most that a step may start with, if its part may start with at most `first`. A loop may start with anything.
#[tactic(auto, unfolding(crate::specs::Bounds::unary_ceiling, crate::specs::Bounds::top))]
pub fn unary_ceiling(transfer: UnaryTransfer, first: u64) -> u64
    ensures { result ≡ unary_ceiling transfer first }
{
    match transfer {
        UnaryTransfer::Loop => TOP,
        UnaryTransfer::After(_) | UnaryTransfer::Call(_, _) => first,
    }
}

#[tactic(auto, unfolding(crate::specs::Bounds::binary_ceiling))]
pub fn binary_ceiling(transfer: BinaryTransfer, first: u64, last: u64) -> u64
    ensures { result ≡ binary_ceiling transfer first last }
{
    match transfer {
        BinaryTransfer::Branch => first.min(last),
        BinaryTransfer::InTurn(_) | BinaryTransfer::Fork(_, _) => first,
    }
}

// The most that a step can leave, if it may leave at most `cap` and its parts can leave `first` and `last`.
#[tactic(auto, unfolding(crate::specs::Bounds::binary_attainable))]
pub fn binary_attainable(transfer: BinaryTransfer, cap: u64, first: u64, last: u64) -> u64
    requires { (first < 9223372036854775808) × (last < 9223372036854775808) }
    ensures { result ≡ binary_attainable transfer cap first last }
{
    match transfer {
        BinaryTransfer::InTurn(effect) => forth(effect, last),
        BinaryTransfer::Branch => cap.min(first.min(last)),
        BinaryTransfer::Fork(start, _) => forth(taking(start), first),
    }
}
