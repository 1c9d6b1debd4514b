// What a step can leave at most. A loop's cap knows what its part can leave, so that no step is looked at twice.
ghost use Rattle.fill_pass.specs.Bounds.{Bounded, Reached};

use super::posts::second_in;
use fill_theory::{Transfer, UnaryTransfer};
use fill_transfer::steps::bounds::{binary_attainable, forth};
use fill_transfer::steps::second_pre;
use fill_transfer::{Column, transfer_in};

// The most that step k can leave from x, where `caps` has the most that each step may leave.
#[tactic(auto, using(fill_theory::proofs::Pass::steps_positive))]
pub(crate) fn attainable_step(
    work: &[u32],
    caps: &[u64; 256],
    column: Column,
    k: usize,
    x: u64,
) -> u64
    requires { Bounded work.now caps.now column k x }
    ensures { Reached work.now caps.now column k x result }
{
    match transfer_in(work, column, k) {
        Transfer::Leaf(effect) => forth(effect, x),
        Transfer::Unary(UnaryTransfer::After(effect)) => {
            forth(effect, attainable_step(work, caps, column, k + 1, x))
        }
        Transfer::Unary(UnaryTransfer::Loop) => x.min(caps[k]),
        Transfer::Unary(UnaryTransfer::Call(_, left)) => left,
        Transfer::Binary(transfer) => {
            let first = attainable_step(work, caps, column, k + 1, x);
            let second = second_in(work, k);
            let next = second_pre(transfer, x, first);
            let last = attainable_step(work, caps, column, second, next);
            binary_attainable(transfer, caps[k], first, last)
        }
    }
}
