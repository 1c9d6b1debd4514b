// The pass: from the number before a step to the number after it. Parts come before their step, so it calls itself for each part.
ghost use Rattle.std.specs.Prelude.{◌≡◌, ◌+◌, ◌<◌};
ghost use Rattle.fill_transfer.specs.Shows.{end_in};
ghost use Rattle.fill_pass.specs.Bounds.{Bounded};
ghost use Rattle.fill_pass.specs.Passed.{settled, Passed};

use fill_theory::Transfer;
use fill_transfer::steps::{after_binary, after_unary, apply, part_pre, second_pre};
use fill_transfer::{Column, transfer_in};
use workspace::{ENDS, at, index};

// The index of the second part of step k: the end of the first.
#[tactic(auto, unfolding(fill_transfer::specs::Shows::end_in))]
pub(crate) fn second_in(work: &[u32], k: usize) -> usize
    requires { k < 256 }
    ensures { result ≡ end_in work.now (k + 1) }
{
    index(at(work, ENDS + k + 1))
}

// Stores the post of step k, if there is one.
fn settle(posts: &mut [u64; 256], k: usize, post: Option<u64>) -> Option<u64>
    requires { k < 256 }
    ensures same { result ≡ post }
    ensures stored { posts.new ≡ settled posts.old k post }
{
    posts[k] = post?;
    post
}

// The posts of step k and of all steps in it, from the number before it, where `caps` has the most that each may be; its own is the
// answer, or none if no posts pass.
#[tactic(auto, using(fill_theory::proofs::Pass::steps_positive))]
pub(crate) fn pass_step(
    work: &[u32],
    caps: &[u64; 256],
    posts: &mut [u64; 256],
    column: Column,
    k: usize,
    pre: u64,
) -> Option<u64>
    requires { Bounded work.now caps.now column k pre }
    ensures { Passed work.now caps.now column k pre posts.old posts.new result }
{
    match transfer_in(work, column, k) {
        Transfer::Leaf(effect) => settle(posts, k, apply(effect, pre)),
        Transfer::Unary(transfer) => {
            let before = part_pre(transfer, pre, caps[k]);
            let first = pass_step(work, caps, posts, column, k + 1, before)?;
            settle(posts, k, after_unary(transfer, before, first))
        }
        Transfer::Binary(transfer) => {
            let first = pass_step(work, caps, posts, column, k + 1, pre)?;
            let second = second_in(work, k);
            let next = second_pre(transfer, pre, first);
            let last = pass_step(work, caps, posts, column, second, next)?;
            settle(posts, k, after_binary(transfer, caps[k], first, last))
        }
    }
}
