// The continuation of each step, found once for a program: what follows once the step is a value.
ghost use Rattle.std.specs.Prelude.{◌≡◌, ◌≤◌};
ghost use Rattle.replay_control.specs.Continuations.{joined, linked_parts, linked_step, linked_from, bodies_joined, linked};

use crate::layout::{CONTINUATIONS, FINISH, LEAVE, PROCEDURES, SECOND_PART};
use crate::put;
use workspace::{Shape, at, index};

// Step k has continuation c.
#[tactic(auto, unfolding(crate::specs::Continuations::joined))]
fn join(program: &mut [u32], k: u32, c: u32)
    ensures { program.new ≡ joined program.old k c }
{
    put(program, CONTINUATIONS + index(k), c);
}

// The parts of step k get their continuations; its own is c, and its second part stands at `second`.
#[tactic(auto, unfolding(crate::specs::Continuations::linked_parts))]
fn link_parts(program: &mut [u32], s: Shape, k: u32, c: u32, second: u32)
    requires { k ≤ 255 }
    ensures { program.new ≡ linked_parts s program.old k c second }
{
    match s {
        Shape::Variable | Shape::Constant | Shape::NoPart => {}
        Shape::While | Shape::OnePart | Shape::Call => join(program, k + 1, k),
        Shape::Let => {
            join(program, k + 1, k);
            join(program, second, c)
        }
        Shape::If => {
            join(program, k + 1, c);
            join(program, second, c)
        }
        Shape::Spawn => {
            join(program, k + 1, k);
            join(program, second, FINISH)
        }
        Shape::Write => {
            join(program, k + 1, k);
            join(program, second, SECOND_PART + k)
        }
    }
}

// The parts of step k get their continuations.
#[tactic(auto, unfolding(crate::specs::Continuations::linked_step, crate::specs::Control::continuation))]
fn link_step(program: &mut [u32], k: u32)
    requires { k ≤ 255 }
    ensures { program.new ≡ linked_step program.old k }
{
    let s = crate::shape_at(program, k);
    let c = at(program, CONTINUATIONS + index(k));
    let second = crate::second(program, k);
    link_parts(program, s, k, c, second);
}

// The steps from 0 to n get the continuations of their parts.
#[tactic(auto, using(crate::proofs::Linking::linked_more), unfolding(crate::specs::Continuations::linked_from))]
fn link_steps(program: &mut [u32], n: u32)
    requires { n ≤ 256 }
    ensures { program.new ≡ linked_from program.old 0 n }
{
    for k in 0..n {
        link_step(program, k);
    }
}

// The bodies of the procedures end their calls.
#[tactic(auto, using(crate::proofs::Linking::bodies_more), unfolding(crate::specs::Continuations::bodies_joined))]
fn link_bodies(program: &mut [u32], procedures: u32)
    ensures { program.new ≡ bodies_joined program.old 0 procedures }
{
    for f in 0..procedures {
        let k = crate::first(program, f);
        join(program, k, LEAVE);
    }
}

// The continuations of a program of n steps with so many procedures.
#[tactic(auto, unfolding(crate::specs::Continuations::linked, crate::specs::Continuations::root_joined))]
pub fn link(program: &mut [u32], n: u32, procedures: u32)
    requires { n ≤ 256 }
    ensures { program.new ≡ linked program.old n procedures }
{
    put(program, PROCEDURES, procedures);
    link_bodies(program, procedures);
    let k = crate::root(program);
    join(program, k, FINISH);
    link_steps(program, n);
}
