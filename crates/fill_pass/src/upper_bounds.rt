// The most that the post of each step may be: parts behind a step are looked at before it, so that it calls itself for the second part
// first.
ghost use Rattle.fill_pass.specs.Bounds.{PartBounded, OwnUpperBound, Cappable, Capped};

use super::attainable::attainable_step;
use super::posts::second_in;
use fill_theory::{Transfer, UnaryTransfer};
use fill_transfer::steps::bounds::{
    TOP, back, binary_ceiling, first_upper_bound, last_upper_bound, part_upper_bound, unary_ceiling,
};
use fill_transfer::{Column, transfer_in};

// The most that step k may leave, if it is to leave at most c and its part may start with at most `first`: a loop leaves no more than
// that, and no more than its part can leave.
#[tactic(auto, unfolding(fill_transfer::specs::Bounds::unary_upper_bound, fill_transfer::specs::Bounds::top))]
fn own_upper_bound(
    work: &[u32],
    caps: &[u64; 256],
    column: Column,
    k: usize,
    transfer: UnaryTransfer,
    c: u64,
    first: u64,
) -> u64
    requires { PartBounded work.now caps.now column k }
    ensures { OwnUpperBound work.now caps.now column k transfer c first result }
{
    match transfer {
        UnaryTransfer::Loop => c.min(first.min(attainable_step(work, caps, column, k + 1, TOP))),
        UnaryTransfer::After(_) | UnaryTransfer::Call(_, _) => c,
    }
}

// Stores the most that step k and all steps in it may leave, if step k is to leave at most c; the answer is the most that it may start
// with.
#[tactic(auto, using(fill_theory::proofs::Pass::steps_positive))]
pub(crate) fn upper_bound_step(
    work: &[u32],
    caps: &mut [u64; 256],
    column: Column,
    k: usize,
    c: u64,
) -> u64
    requires { Cappable work.now column k c }
    ensures { Capped work.now column k c caps.old caps.new result }
{
    match transfer_in(work, column, k) {
        Transfer::Leaf(effect) => {
            caps[k] = c;
            back(effect, c)
        }
        Transfer::Unary(transfer) => {
            let first = upper_bound_step(work, caps, column, k + 1, part_upper_bound(transfer, c));
            caps[k] = own_upper_bound(work, caps, column, k, transfer, c, first);
            unary_ceiling(transfer, first)
        }
        Transfer::Binary(transfer) => {
            let second = second_in(work, k);
            let last = upper_bound_step(work, caps, column, second, last_upper_bound(transfer, c));
            let under = first_upper_bound(transfer, c, last);
            let first = upper_bound_step(work, caps, column, k + 1, under);
            caps[k] = c;
            binary_ceiling(transfer, first, last)
        }
    }
}
