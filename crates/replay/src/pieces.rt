// A replay whose trace comes in pieces: it begins with a program (`begin` in start.rt), and goes on with any number of pieces, each of them lines
// of the trace. What it keeps between two calls is the job (the program as the run reads it), the space, and the run itself, a value.
ghost use Rattle.std.specs.Prelude.{◌≡◌, true, List, ◌++◌, ℕ, ◌+◌, ◌<◌, length, drop};
ghost use Rattle.spec.specs.Text.{Line, lines};
ghost use Rattle.replay_theory.specs.Replay.{replay_space, replay as replayed};
ghost use Rattle.replay_theory.specs.declared.Replayed.{Replayed as Whole};
ghost use Rattle.replay_loop.specs.Play.{LoopPost};
ghost use Rattle.replay.specs.Pieces.{ends_line, telling, RunOf};

use replay_control::layout::SPACE;
use replay_loop::{Point, play};
use replay_theory::{Ending, Replayed, Report};
use threads::LIMIT;

// Goes on with the lines of a piece, in a space of just the size. A run whose counts have no room for them stays as it is.
fn go_on(job: &[u32], space: &mut [u32], run: Point, piece: &[u8]) -> Point
    ensures { (whole : List Line → Whole) → LoopPost run.ending whole job.now space.old run → run.steps + length piece.now < 18446744073709551616 → LoopPost result.ending (λ ls. whole (lines piece.now ++ ls)) job.now space.new result }
{
    if run.ending.is_some() || LIMIT < run.threads.count || usize::MAX - piece.len() < run.steps {
        return run;
    }
    let start = Point { at: 0, ..run };
    play(job, space, piece, start)
}

// Goes on with a piece of the trace:
// goes_on: if the job, the space and the run are those of a program behind lines of its trace, the run is the one behind those lines and
// the piece, as long as its steps can be counted; the next piece may follow if this one ends with a line;
// unchanged: the job and the piece are as they were;
// kept: a space that is too short is as it was;
// free: behind the numbers that a replay needs the space is as it was.
pub fn more(job: &[u32], space: &mut [u32], run: Point, piece: &[u8]) -> Point
    ensures goes_on { (program trace : List ℕ) → RunOf program trace job.now space.old run → ends_line trace ≡ true → run.steps + length piece.now < 18446744073709551616 → RunOf program (trace ++ piece.now) job.now space.new result }
    ensures unchanged { (job.exit.now ≡ job.entry.now) × (piece.exit.now ≡ piece.entry.now) }
    ensures kept { length space.old < replay_space → space.new ≡ space.old }
    ensures free { (length space.new ≡ length space.old) × (drop replay_space space.new ≡ drop replay_space space.old) }
{
    if space.len() < SPACE {
        return run;
    }
    go_on(job, &mut space[..SPACE], run, piece)
}

// What a run tells:
// said: its ending, its steps and its race;
// answer: for the run of a program behind a trace that is what `replay` tells of both, however many pieces the trace came in.
pub fn told(run: Point) -> Replayed
    ensures said { result ≡ telling run }
    ensures answer { (program trace job space : List ℕ) → RunOf program trace job space run → result ≡ replayed (length space) program trace }
{
    Replayed {
        ending: run.ending.unwrap_or(Ending::Done),
        report: Report {
            steps: run.steps,
            race: run.race,
        },
    }
}
