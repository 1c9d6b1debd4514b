// The steps of a program's threads on numbers in a lent space. `replay_step` has what a word does by itself; here a thread goes on to its
// next word, the records of threads follow `spawn` and `join`, and the threads that race are found.
#![tactic(auto)]

mod control_points;
mod races;

ghost use Rattle.std.specs.Prelude.{◌≡◌, ◌-◌, Err};
ghost use Rattle.replay_engine.specs.Steps.{may_choose as may_choose_of, proceeded, past_calls, moved_to, copied, gives_zero, spawned_step, joined_step, act_step, stepped, halted, zeroed, start_of};

use control_points::{control_point_at, go_on};
pub use races::lowest_pair;
use replay_control::{ControlPoint, Mode, layout, put, second, shape_at, variable};
use replay_objects::{Slot, Thing};
pub use replay_step::Halt;
use replay_step::{Act, gives};
use threads::Threads;
use workspace::{Shape, at, index};

// Why a step is not taken, and the threads then: those before it, but past the limit of open calls those after it, as the space is then.
#[derive(Clone, Copy)]
pub struct Halted {
    pub why: Halt,
    pub threads: Threads,
}

impl Halted {
    // For that reason, with those threads.
    fn of(why: Halt, threads: Threads) -> Halted
        ensures { Err result ≡ halted why threads }
    {
        Halted { why, threads }
    }
}

// "choice is 0 or 1 at an if and 0 elsewhere"
#[tactic(auto, unfolding(crate::specs::Steps::may_choose, replay_control::specs::Shapes::is_if))]
fn may_choose(program: &[u32], f: ControlPoint, choice: u32) -> bool
    ensures { result ≡ may_choose_of program.now f choice }
{
    match choice {
        0 => true,
        1 => f.mode == Mode::Unrolled || shape_at(program, f.at) == Shape::If,
        _ => false,
    }
}

// Thread t goes on from there; its record says so if it has finished.
#[tactic(auto, unfolding(crate::specs::Steps::proceeded, crate::specs::Steps::recorded))]
fn proceed(program: &[u32], space: &mut [u32], threads: Threads, t: u32, f: ControlPoint) -> Threads
    ensures { proceeded program.now space.old threads t f ≡ (result, space.new) }
{
    if go_on(program, space, t, f) {
        return threads.finished(index(t));
    }
    threads
}

// The most calls that may be open in one thread.
const CALL_LIMIT: usize = 64;

// Whether more calls are open in thread t now.
fn past_calls(space: &[u32], t: u32) -> bool
    ensures { result ≡ past_calls space.now t }
{
    let i = index(t);
    layout::LEVELS * i + CALL_LIMIT < index(at(space, layout::CONTROL_POINT_ROWS + i))
}

// Thread t goes on from there, and its step is done, unless it is past the limit.
#[tactic(auto, unfolding(crate::specs::Steps::moved_to, crate::specs::Steps::outcome_of))]
fn move_to(
    program: &[u32],
    space: &mut [u32],
    threads: Threads,
    t: u32,
    f: ControlPoint,
) -> Result<Threads, Halted>
    ensures { moved_to t (proceeded program.now space.old threads t f) ≡ (result, space.new) }
{
    let after = proceed(program, space, threads, t, f);
    if past_calls(space, t) {
        return Err(Halted::of(Halt::Past, after));
    }
    Ok(after)
}

// The word of thread t at f becomes 0.
#[tactic(auto, unfolding(crate::specs::Steps::gives_zero))]
fn give_zero(
    program: &[u32],
    space: &mut [u32],
    threads: Threads,
    t: u32,
    f: ControlPoint,
) -> Result<Threads, Halted>
    ensures { gives_zero program.now t f (threads, space.old) ≡ (result, space.new) }
{
    move_to(program, space, threads, t, gives(program, f, 0))
}

// A row gets the variables of another.
#[tactic(auto, using(crate::proofs::Copying::copied_more), unfolding(crate::specs::Steps::copied, crate::specs::Steps::copied_from))]
fn copy(space: &mut [u32], from: u32, to: u32)
    ensures { space.new ≡ copied space.old from to }
{
    for x in 0..256 {
        let v = variable(space, from, x);
        put(
            space,
            layout::ENVIRONMENTS + layout::ROW * index(to) + index(x),
            v,
        );
    }
}

// The `spawn` at f: a thread is added, with its e2 and no open call, and the word becomes 0.
#[tactic(auto, unfolding(crate::specs::Steps::spawned_step))]
fn spawn(
    program: &[u32],
    space: &mut [u32],
    threads: Threads,
    t: u32,
    f: ControlPoint,
    tid: u32,
) -> Result<Threads, Halted>
    ensures { spawned_step program.now space.old threads t f tid ≡ (result, space.new) }
{
    let count = threads.count;
    if threads::LIMIT <= count {
        return Err(Halted::of(Halt::Past, threads));
    }
    let row = (layout::LEVELS * count) as u32;
    copy(space, f.row, row);
    let body = ControlPoint::entering(row, second(program, f.at));
    let added = proceed(program, space, threads.spawned(tid), count as u32, body);
    give_zero(program, space, added, t, f)
}

// The `join` at f takes the lowest finished thread with that identifier, and becomes 0.
#[tactic(auto, unfolding(crate::specs::Steps::joined_step, crate::specs::Steps::joined_by))]
fn join(
    program: &[u32],
    space: &mut [u32],
    threads: Threads,
    t: u32,
    f: ControlPoint,
    tid: u32,
) -> Result<Threads, Halted>
    ensures { joined_step program.now space.old threads t f tid ≡ (result, space.new) }
{
    let i = threads.lowest(tid).ok_or(Halted::of(Halt::Stuck, threads))?;
    give_zero(program, space, threads.joined(i), t, f)
}

// What is left of the step of thread t at f, by what its word comes to.
#[tactic(auto, unfolding(crate::specs::Steps::act_step))]
fn finish_step(
    program: &[u32],
    space: &mut [u32],
    threads: Threads,
    t: u32,
    f: ControlPoint,
    reduced: Result<Act, Halt>,
) -> Result<Threads, Halted>
    ensures { act_step program.now space.old threads t f reduced ≡ (result, space.new) }
{
    match reduced {
        Ok(Act::Go(g)) => move_to(program, space, threads, t, g),
        Ok(Act::Spawn(tid)) => spawn(program, space, threads, t, f, tid),
        Ok(Act::Join(tid)) => join(program, space, threads, t, f, tid),
        Err(why) => Err(Halted::of(why, threads)),
    }
}

// Thread t takes its next step, with that choice: the threads after it, taken or not.
#[tactic(auto, unfolding(crate::specs::Steps::stepped, crate::specs::Steps::stepped_from, crate::specs::Steps::after_act))]
pub fn step(
    program: &[u32],
    space: &mut [u32],
    threads: Threads,
    t: u32,
    choice: u32,
) -> Result<Threads, Halted>
    ensures { stepped program.now space.old threads t choice ≡ (result, space.new) }
{
    if !threads.runs(index(t)) {
        return Err(Halted::of(Halt::Stuck, threads));
    }
    let f = control_point_at(space, t);
    if !may_choose(program, f, choice) {
        return Err(Halted::of(Halt::Stuck, threads));
    }
    let reduced = replay_step::reduce(program, space, f, choice);
    finish_step(program, space, threads, t, f, reduced)
}

// The numbers of the space from a place up to another become 0.
#[tactic(auto, using(crate::proofs::Clearing::clear_more), unfolding(crate::specs::Steps::zeroed))]
fn clear_part(space: &mut [u32], from: usize, to: usize)
    ensures { space.new ≡ zeroed space.old from (to - from) }
{
    for i in from..to {
        put(space, i, 0);
    }
}

// The start: one thread, about to evaluate the root, and no thing but its identifier, whose value is 1. Of the space only what is looked at
// before it is stored is cleared: the variables of the first row, and the counts and kinds of things.
#[tactic(auto, unfolding(crate::specs::Steps::start_of, crate::specs::Steps::start_space, replay_objects::specs::Stored::numbers_of))]
pub fn start(program: &[u32], space: &mut [u32]) -> Threads
    ensures { start_of program.now space.old ≡ (result, space.new) }
{
    clear_part(space, layout::ENVIRONMENTS, layout::ROW);
    clear_part(space, layout::THING_COUNTS, layout::THING_FIRSTS);
    put(
        space,
        layout::THING_KINDS + 1,
        Slot::of(Thing::Identifier).kind,
    );
    put(space, layout::NEXT_VALUE, 2);
    let root = ControlPoint::entering(0, replay_control::root(program));
    proceed(program, space, Threads::start(1), 0, root)
}
