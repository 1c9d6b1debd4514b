// Roots: steps that start by themselves, with a number that is given. They are the bodies of procedures and the root of the program.
ghost use Rattle.std.specs.Prelude.{◌≡◌, ◌<◌};
ghost use Rattle.fill_pass.specs.Passed.{RootReady, RootPassed};
ghost use Rattle.fill_pass.specs.Roots.{first_in, RootsReady, RootsFilled};

use super::Given;
use super::posts::pass_step;
use super::upper_bounds::upper_bound_step;
use fill_transfer::steps::bounds::TOP;
use fill_transfer::{Column, after_in, before_in, cell_in};
use workspace::{PROC_FIRSTS, at, index};

// The greatest posts of step k and of all steps in it, from the number before it; its own is the answer, or none if no posts pass.
fn root_posts(
    work: &[u32],
    posts: &mut [u64; 256],
    column: Column,
    k: usize,
    pre: u64,
) -> Option<u64>
    requires { RootReady work.now column k pre }
    ensures { RootPassed work.now column k pre posts.old posts.new result }
{
    let mut caps = [0u64; 256];
    upper_bound_step(work, &mut caps, column, k, TOP);
    pass_step(work, &caps, posts, column, k, pre)
}

// The first step of the body of procedure f, or of the root behind all bodies.
#[tactic(auto, unfolding(crate::specs::Roots::first_in))]
fn first_in(work: &[u32], f: usize) -> usize
    requires { f < 4294967296 }
    ensures { result ≡ first_in work.now f }
{
    index(at(work, PROC_FIRSTS + f))
}

// Whether posts pass of all bodies, each from its procedure's start to at least what it leaves, and of the root; if so, the greatest are
// stored.
pub(crate) fn fill_roots(work: &[u32], posts: &mut [u64; 256], column: Column, given: Given) -> bool
    requires { RootsReady work.now column given 0 }
    ensures { RootsFilled work.now column given 0 posts.old posts.new result }
{
    let procedures = index(given.procedures);
    for f in 0..procedures {
        let first = first_in(work, f);
        let before = u64::from(before_in(work, column, f));
        let Some(left) = root_posts(work, posts, column, first, before) else {
            return false;
        };
        let due = u64::from(after_in(work, column, f));
        if left < due {
            return false;
        }
    }
    let first = first_in(work, procedures);
    let pre = u64::from(cell_in(work, column, given.start));
    root_posts(work, posts, column, first, pre).is_some()
}
