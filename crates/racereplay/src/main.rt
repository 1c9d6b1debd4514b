// Reads `program.txt` and `trace.txt` in the current folder and writes one line: `RAN,` or `RACE,` and what the replay reports, `REFUSE,`
// and four numbers with what it reports, or `UNREAD`. The replay is in the library `replay`, the wording in `replay_answers`; here is only
// what meets the outside.
#![tactic(auto)]

mod buffered;

ghost use Rattle.std.specs.Prelude.{◌≡◌, true, List, ◌++◌, ℕ, ◌+◌, ◌<◌, length};
ghost use Rattle.replay_theory.specs.Replay.{replay as replayed};
ghost use Rattle.replay_answers.specs.Line.{output_line};
ghost use Rattle.replay.specs.Pieces.{ends_line, RunOf};

use buffered::take_in;
use file_io::{fill, is_given, open_trace, read_program, write_all};
use replay::{begin, more, told};
use replay_answers::write_line;
use replay_loop::Point;
use replay_theory::Replayed;
use std::fs::Files;
use std::io::{Read, Write};

// What a run tells behind the last bytes of its trace.
fn rest(job: &[u32], space: &mut [u32], run: Point, bytes: &[u8]) -> Replayed
    ensures { (program trace : List ℕ) → RunOf program trace job.now space.old run → ends_line trace ≡ true → run.steps + length bytes.now < 18446744073709551616 → result ≡ replayed (length space.old) program (trace ++ bytes.now) }
{
    told(more(job, space, run, bytes))
}

// Replays a trace as it is read, through a buffer; none if a read fails. A line that fills the buffer is longer than any line of a trace,
// and what comes behind it is not read. A loop has to end: this one takes a whole buffer a turn, and no disk has so many.
fn replay_through<R: Read>(
    trace: &mut R,
    job: &[u32],
    space: &mut [u32],
    start: Point,
    buffer: &mut [u8],
) -> Option<Replayed> {
    let mut run = start;
    let mut held = 0;
    for _ in 0..u64::MAX {
        let n = fill(trace, buffer, held)?;
        if n < buffer.len() {
            return Some(rest(job, space, run, &buffer[..n]));
        }
        let taken = take_in(job, space, run, buffer);
        run = taken.run;
        held = taken.held;
        if buffer.len() <= held {
            return Some(rest(job, space, run, buffer));
        }
    }
    None
}

// The same with a buffer of its own.
fn replay_file<R: Read>(
    trace: &mut R,
    job: &[u32],
    space: &mut [u32],
    start: Point,
) -> Option<Replayed> {
    let mut buffer = [0u8; 65536];
    replay_through(trace, job, space, start, &mut buffer)
}

// Replays a program and the trace of a file in a space that is lent as an array, whose length is known: a proof that counts so many numbers
// runs out of room.
fn replay_in<R: Read>(
    program: &[u8],
    trace: &mut R,
    space: &mut [u32; 542_960],
) -> Option<Replayed> {
    let mut job = [0u32; 2449];
    let start = begin(program, &mut job, space);
    replay_file(trace, &job, space, start)
}

// The same in a space of its own.
fn replay_here<R: Read>(program: &[u8], trace: &mut R) -> Option<Replayed> {
    let mut space = [0u32; 542_960];
    replay_in(program, trace, &mut space)
}

// The program is read whole, and the trace is replayed as it is read.
fn run<R: Files>(rt: &R) -> Option<Replayed> {
    let mut program = [0u8; 16385];
    let p = read_program(rt, &mut program)?;
    let mut trace = open_trace(rt)?;
    replay_here(&program[..p], &mut trace)
}

// Writes the line of an outcome to standard output by one call, so that no other program's line comes between its parts.
fn put_line<W: Write>(out: &mut W, line: &[u8], outcome: Option<Replayed>)
    requires { line.now ≡ output_line outcome }
{
    write_all(out, line);
}

// Tells an outcome in its line, which is made first.
fn tell<W: Write>(out: &mut W, outcome: Option<Replayed>) {
    let mut line = [0u8; 256];
    let n = write_line(&mut line, outcome);
    put_line(out, &line[..n], outcome);
}

// An argument is refused: who names a folder would take the answer for that folder's.
fn main(rt: HostRuntime) {
    let mut out = rt.stdout();
    if is_given(&rt, 1) {
        let mut err = rt.stderr();
        write_all(
            &mut err,
            b"usage: racereplay, with no argument, in a folder with program.txt and trace.txt\n",
        );
        tell(&mut out, None);
        return;
    }
    tell(&mut out, run(&rt));
}
