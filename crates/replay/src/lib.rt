// The offered calls of request (xii): a program, a trace and a lent space in, an answer and a report out; and the same of a trace that comes
// in pieces.
#![tactic(auto)]

mod pieces;
mod start;

ghost use Rattle.std.specs.Prelude.{◌≡◌, ◌<◌, length, drop};
ghost use Rattle.replay_theory.specs.Replay.{replay_space, replay as replayed, returned_for};
ghost use Rattle.replay_theory.specs.Claim.{TraceFollowed, RaceFound, NoneIfAccepted};

pub use pieces::{more, told};
use replay_control::layout::PROGRAM;
use replay_theory::Replayed;
pub use start::begin;

// The replay of a program and a trace. What request (xii) asks of it, clause by clause:
// answer: its four numbers are those of the request, for every input, with a refused sheet those of document 01;
// ending: and it ends as the definition does;
// report: so are the steps done and the first state with a race;
// unchanged: both texts are as they were;
// kept: a space that is too short is as it was;
// free: of a longer one nothing is promised but its length, and that the numbers behind those that a replay needs are as they were;
// stops: each step done is the language's, of the thread and with the choice that its line lists; a join takes the lowest finished thread;
// and the trace stops for what the line behind them is: 46, 47 exactly if no such step is there, 48 for a step past a limit, or no line;
// first_race: the race reported is the first of these states, with its lowest pair; where none is reported there is none;
// safe: of an accepted program no race is reported, whatever the trace.
pub fn replay(program: &[u8], trace: &[u8], space: &mut [u32]) -> Replayed
    ensures answer { returned_for result.ending ≡ returned_for (replayed (length space.old) program.now trace.now).ending }
    ensures ending { result.ending ≡ (replayed (length space.old) program.now trace.now).ending }
    ensures report { result.report ≡ (replayed (length space.old) program.now trace.now).report }
    ensures unchanged { (program.exit.now ≡ program.entry.now) × (trace.exit.now ≡ trace.entry.now) }
    ensures kept { length space.old < replay_space → space.new ≡ space.old }
    ensures free { (length space.new ≡ length space.old) × (drop replay_space space.new ≡ drop replay_space space.old) }
    ensures stops { TraceFollowed (length space.old) program.now trace.now result.report.steps (returned_for result.ending) }
    ensures first_race { RaceFound (length space.old) program.now trace.now result.report.race }
    ensures safe { NoneIfAccepted program.now result.report.race }
{
    let mut job = [0u32; PROGRAM];
    let start = begin(program, &mut job, space);
    told(more(&job, space, start, trace))
}
