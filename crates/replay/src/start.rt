// The start of a replay: from the sheet that the space holds to the first line of the trace.
ghost use Rattle.std.specs.Prelude.{◌≡◌, [], length, drop, ◌<◌, ◌≤◌};
ghost use Rattle.spec.specs.Program.{Program};
ghost use Rattle.spec.specs.declared.Refusal.TheVariants.{ShortWorkspace};
ghost use Rattle.replay_theory.specs.Replay.{replay_space, judged, refused as refused_by};
ghost use Rattle.replay_machine.specs.Replay.{start_replay, play as played, replayed as played_of};
ghost use Rattle.replay_simulation.proofs.Bodies.{ProgramStands};
ghost use Rattle.replay_loop.specs.Play.{LoopPost};
ghost use Rattle.replay.specs.Start.{SheetIn, Copied, Runs, HeldAs, Held, refused_point};
ghost use Rattle.replay.specs.Pieces.{job_size, telling, RunOf};

use program::Counts;
use replay_control::layout::{CONTINUATIONS, PROGRAM, SPACE};
use replay_loop::{Point, race_after};
use replay_theory::Ending;
use spec::Refusal;
use threads::Threads;

// The start of a linked program.
fn first_point(job: &[u32; PROGRAM], space: &mut [u32; SPACE]) -> Point
    requires { Runs job.now }
    ensures { ((P : Program) → ProgramStands job.now P.procedures P.root → LoopPost result.ending (played (start_replay P)) job.now space.new result) × (result.steps ≡ 0) }
{
    let threads = replay_engine::start(job, space);
    Point {
        ending: None,
        threads,
        at: 0,
        steps: 0,
        race: race_after(job, space, threads.count as u32, None, 0),
    }
}

// The columns of the program that the space holds: its steps, as the reader of program sheets left them.
fn copy_columns(columns: &mut [u32; PROGRAM], space: &[u32; SPACE])
    ensures { Copied space.now columns.new }
{
    for i in 0..CONTINUATIONS {
        columns[i] = space[i];
    }
}

// Reads a program sheet in the front of the space, which has more room than its reader asks for.
fn read_program(program: &[u8], space: &mut [u32; SPACE]) -> Result<Counts, Refusal>
    requires { length program.now ≤ 16384 }
    ensures { SheetIn program.now space.new result }
{
    program::read(program, &mut space[..workspace::SIZE])
}

// The run of the program that the space holds: its columns become the job, and the space the run's.
fn begin_held(job: &mut [u32; PROGRAM], space: &mut [u32; SPACE], counts: Counts) -> Point
    requires { Held space.old counts }
    ensures { ((P : Program) → HeldAs P space.old counts → LoopPost result.ending (played (start_replay P)) job.new space.new result) × (result.steps ≡ 0) }
{
    copy_columns(job, space);
    replay_control::link(job, counts.steps as u32, counts.procedures as u32);
    first_point(job, space)
}

// The most bytes that a program sheet may have.
const PROGRAM_LIMIT: usize = 16384;

// A run that the refusal of its sheet has stopped.
#[tactic(auto, unfolding(crate::specs::Start::refused_point))]
fn refused_point(r: Refusal) -> Point
    ensures { result ≡ refused_point r }
{
    Point {
        ending: Some(Ending::Refused(r)),
        threads: Threads::start(1),
        at: 0,
        steps: 0,
        race: None,
    }
}

// Begins with a program in a job and a space of just the size.
fn begin_in(program: &[u8], job: &mut [u32; PROGRAM], space: &mut [u32; SPACE]) -> Point
    ensures { LoopPost result.ending (played_of (judged replay_space program.now)) job.new space.new result × (result.steps ≡ 0) × (length space.new ≡ replay_space) }
{
    if PROGRAM_LIMIT < program.len() {
        return refused_point(Refusal::LongProgram);
    }
    match read_program(program, space) {
        Ok(counts) => begin_held(job, space, counts),
        Err(r) => refused_point(r),
    }
}

// Begins a replay:
// begun: the run is that of the program behind no trace at all; it has stopped if the sheet is refused, or the space is too short;
// short: a job of another size is refused as a short space is;
// at_start: no step is done;
// unchanged: the text is as it was;
// kept: a space that is too short is as it was;
// free: behind the numbers that a replay needs the space is as it was.
pub fn begin(program: &[u8], job: &mut [u32], space: &mut [u32]) -> Point
    ensures begun { length job.old ≡ job_size → RunOf program.now [] job.new space.new result }
    ensures short { (length job.old ≡ job_size → ⊥) → telling result ≡ refused_by ShortWorkspace }
    ensures at_start { result.steps ≡ 0 }
    ensures unchanged { program.exit.now ≡ program.entry.now }
    ensures kept { length space.old < replay_space → space.new ≡ space.old }
    ensures free { (length space.new ≡ length space.old) × (drop replay_space space.new ≡ drop replay_space space.old) }
{
    let Some(job) = job.as_mut_array() else {
        return refused_point(Refusal::ShortWorkspace);
    };
    let Some(space) = space.first_chunk_mut() else {
        return refused_point(Refusal::ShortWorkspace);
    };
    begin_in(program, job, space)
}
