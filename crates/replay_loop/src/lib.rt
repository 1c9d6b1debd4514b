// The lines of a piece of a trace in turn: the run between two of them, and the first race so far.
#![tactic(auto)]

ghost use Rattle.std.specs.Prelude.{◌≡◌, List, ◌<◌, ◌≤◌, length, drop};
ghost use Rattle.spec.specs.Text.{Line};
ghost use Rattle.lexer.specs.Views.{line_at};
ghost use Rattle.trace.specs.Lines.{move_in};
ghost use Rattle.replay_engine.specs.Steps.{stepped};
ghost use Rattle.replay_theory.specs.declared.Replayed.{Replayed as Whole};
ghost use Rattle.replay_loop.specs.Play.{race_after, stopped_by, after_step, line_done, Steady, LoopPre, LoopPost};

use replay_engine::Halt;
use replay_theory::{Ending, Race};
use threads::Threads;
use trace::Move;

// A run between two lines of its trace: what has stopped it, unless it goes on; its threads, the byte of the next line in the piece at
// hand, the steps done and the first race so far, both counted from the start of the trace.
#[derive(Clone, Copy)]
pub struct Point {
    pub ending: Option<Ending>,
    pub threads: Threads,
    pub at: usize,
    pub steps: usize,
    pub race: Option<Race>,
}

// The first race so far, once the state of that number is looked at, which has `count` threads.
#[tactic(auto, unfolding(crate::specs::Play::race_after, replay_machine::specs::Replay::or_race, replay_theory::specs::Replay::race_or))]
pub fn race_after(
    program: &[u32],
    space: &[u32],
    count: u32,
    race: Option<Race>,
    state: usize,
) -> Option<Race>
    ensures { result ≡ race_after program.now space.now count race state }
{
    if race.is_some() {
        return race;
    }
    let (lower, other) = replay_engine::lowest_pair(program, space, count)?;
    Some(Race {
        state,
        lower,
        other,
    })
}

// The same run, stopped.
#[tactic(auto, unfolding(crate::specs::Play::stopped_by))]
fn stopped(p: Point, ending: Ending) -> Point
    ensures { result ≡ stopped_by p ending }
{
    Point {
        ending: Some(ending),
        ..p
    }
}

// A line that lists that move.
#[tactic(auto, unfolding(crate::specs::Play::after_step, crate::specs::Play::by_outcome, crate::specs::Play::ending_of))]
fn move_on(program: &[u32], space: &mut [u32], p: Point, m: Move) -> Point
    requires { (p.steps < 18446744073709551615) × (p.threads.count ≤ 16) }
    ensures { after_step program.now p m.next (stepped program.now space.old p.threads m.thread m.choice) ≡ (result, space.new) }
{
    let line = p.steps + 1;
    match replay_engine::step(program, space, p.threads, m.thread, m.choice) {
        Ok(threads) => Point {
            ending: None,
            threads,
            at: m.next,
            steps: line,
            race: race_after(program, space, threads.count as u32, p.race, line),
        },
        Err(halted) => match halted.why {
            Halt::Stuck => stopped(p, Ending::NoStep(line)),
            Halt::Past => stopped(p, Ending::PastLimit(line)),
        },
    }
}

// The next line.
#[tactic(auto, unfolding(crate::specs::Play::line_done))]
fn next_line(program: &[u32], space: &mut [u32], piece: &[u8], p: Point) -> Point
    requires { (p.at ≤ length piece.now) × (p.steps < 18446744073709551615) × (p.threads.count ≤ 16) }
    ensures { line_done program.now space.old p (move_in (length piece.now) (line_at (drop p.at piece.now))) ≡ (result, space.new) }
{
    let line = p.steps + 1;
    match trace::line_at(piece, p.at) {
        Some(m) => move_on(program, space, p, m),
        None => stopped(p, Ending::TraceForm(line)),
    }
}

// The lines of the piece from there on, until one stops the run.
pub fn play(program: &[u32], space: &mut [u32], piece: &[u8], start: Point) -> Point
    requires { Steady piece.now start }
    ensures { (whole : List Line → Whole) → LoopPre whole program.now space.old piece.now start → LoopPost result.ending whole program.now space.new result }
{
    let mut p = start;
    while p.at < piece.len() {
        p = next_line(program, space, piece, p);
        if p.ending.is_some() {
            return p;
        }
    }
    p
}
