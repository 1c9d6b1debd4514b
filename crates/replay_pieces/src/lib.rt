// A replay whose trace comes in pieces, for callers that keep its run as numbers: it begins with a program, goes on with any number of pieces,
// each of them lines of the trace, and tells what it has come to. Between two calls all of it lies in three lent buffers: the job, which is the
// program as the run reads it, the space, and the run (crates/replay_kept).
#![tactic(auto)]

mod runs;

ghost use Rattle.std.specs.Prelude.{◌≡◌, true, false, List, [], ◌++◌, ℕ, ◌+◌, ◌<◌, length};
ghost use Rattle.spec.specs.declared.Refusal.TheVariants.{ShortWorkspace};
ghost use Rattle.replay_theory.specs.Replay.{replay_space, replay as replayed, refused as refused_by};
ghost use Rattle.replay.specs.Pieces.{ends_line, job_size};
ghost use Rattle.replay_kept.specs.Kept.{kept_size, told_numbers};
ghost use Rattle.replay_pieces.specs.Pieces.{roomy as roomy_for, answer_number, FrontUsed, RunIn, KeptRun};

use replay_control::layout::PROGRAM;
use replay_kept::{GOES, KEPT, Told, short_told, told_in};
use runs::{keep, point_in};

// The number of the answer where a buffer is too short.
const SHORT: u32 = 1;

// Begins in a job and a run of just the size.
fn begin_in(program: &[u8], job: &mut [u32], space: &mut [u32], run: &mut [u64; KEPT]) -> u32
    requires { length job.old ≡ job_size }
    ensures { RunIn program.now [] job.new space.new run.new × (result ≡ answer_number (length space.old) program.now []) × (length space.old < replay_space → space.new ≡ space.old) × FrontUsed replay_space space.old space.new × (length run.new ≡ kept_size) }
{
    let point = replay::begin(program, job, space);
    keep(run, point)
}

// Begins a replay:
// begun: if the job and the run have room, the buffers hold the run of the program behind no trace at all; it has stopped if the sheet is
// refused, or the space is too short;
// answer: and the number is that of its answer;
// short: else it is 1, and nothing is written;
// unchanged: the text is as it was;
// kept: a space that is too short is as it was;
// free: behind the numbers that a replay needs each buffer is as it was.
pub fn begin(program: &[u8], job: &mut [u32], space: &mut [u32], run: &mut [u64]) -> u32
    ensures begun { roomy_for job.old run.old ≡ true → KeptRun program.now [] job.new space.new run.new }
    ensures answer { roomy_for job.old run.old ≡ true → result ≡ answer_number (length space.old) program.now [] }
    ensures short { roomy_for job.old run.old ≡ false → (result ≡ 1) × (job.new ≡ job.old) × (space.new ≡ space.old) × (run.new ≡ run.old) }
    ensures unchanged { program.exit.now ≡ program.entry.now }
    ensures kept { length space.old < replay_space → space.new ≡ space.old }
    ensures free { FrontUsed job_size job.old job.new × FrontUsed replay_space space.old space.new × FrontUsed kept_size run.old run.new }
{
    if job.len() < PROGRAM {
        return SHORT;
    }
    match run.first_chunk_mut() {
        Some(run) => begin_in(program, &mut job[..PROGRAM], space, run),
        None => SHORT,
    }
}

// Goes on with the lines of a piece, in a job and a run of just the size. A run that has stopped stays as it is.
fn go_on(job: &[u32], space: &mut [u32], run: &mut [u64; KEPT], piece: &[u8]) -> u32
    ensures { ((program trace : List ℕ) → RunIn program trace job.now space.old run.old → ends_line trace ≡ true → (replayed (length space.old) program trace).report.steps + length piece.now < 18446744073709551616 → RunIn program (trace ++ piece.now) job.now space.new run.new × (result ≡ answer_number (length space.old) program (trace ++ piece.now))) × (length space.old < replay_space → space.new ≡ space.old) × FrontUsed replay_space space.old space.new × (length run.new ≡ kept_size) }
{
    if run[GOES] == 0 {
        return told_in(run).ending.number;
    }
    let after = replay::more(job, space, point_in(run), piece);
    keep(run, after)
}

// Goes on with a piece of the trace:
// goes_on: if the buffers hold the run of a program behind lines of its trace, they hold the one behind those lines and the piece, as long as
// its steps can be counted; the next piece may follow if this one ends with a line;
// answer: and the number is that of its answer, 0 as long as every line is done;
// short: if the job or the run has no room the number is 1, and nothing is written;
// unchanged: the job and the piece are as they were;
// kept: a space that is too short is as it was;
// free: behind the numbers that a replay needs each buffer is as it was.
pub fn more(job: &[u32], space: &mut [u32], run: &mut [u64], piece: &[u8]) -> u32
    ensures goes_on { (program trace : List ℕ) → KeptRun program trace job.now space.old run.old → ends_line trace ≡ true → (replayed (length space.old) program trace).report.steps + length piece.now < 18446744073709551616 → KeptRun program (trace ++ piece.now) job.now space.new run.new }
    ensures answer { (program trace : List ℕ) → KeptRun program trace job.now space.old run.old → ends_line trace ≡ true → (replayed (length space.old) program trace).report.steps + length piece.now < 18446744073709551616 → result ≡ answer_number (length space.old) program (trace ++ piece.now) }
    ensures short { roomy_for job.now run.old ≡ false → (result ≡ 1) × (space.new ≡ space.old) × (run.new ≡ run.old) }
    ensures unchanged { (job.exit.now ≡ job.entry.now) × (piece.exit.now ≡ piece.entry.now) }
    ensures kept { length space.old < replay_space → space.new ≡ space.old }
    ensures free { FrontUsed replay_space space.old space.new × FrontUsed kept_size run.old run.new }
{
    if job.len() < PROGRAM {
        return SHORT;
    }
    match run.first_chunk_mut() {
        Some(run) => go_on(&job[..PROGRAM], space, run, piece),
        None => SHORT,
    }
}

// What a run tells:
// answer: if the buffers hold the run of a program behind a trace, what `replay` tells of both, however many pieces the trace came in;
// short: if the run has no room, a refusal with 1;
// unchanged: the run is as it was.
pub fn told(run: &[u64]) -> Told
    ensures answer { (program trace job space : List ℕ) → KeptRun program trace job space run.now → result ≡ told_numbers (replayed (length space) program trace) }
    ensures short { length run.now < kept_size → result ≡ told_numbers (refused_by ShortWorkspace) }
    ensures unchanged { run.exit.now ≡ run.entry.now }
{
    match run.first_chunk::<KEPT>() {
        Some(run) => told_in(run),
        None => short_told(),
    }
}
