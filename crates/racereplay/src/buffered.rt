// A trace that comes through a buffer: its lines are handed on to the replay, and the front of a line that the buffer's end has cut is carried
// over to the next filling.
ghost use Rattle.std.specs.Prelude.{◌≡◌, true, List, ℕ, ◌+◌, ◌<◌, ◌≤◌, length, take};
ghost use Rattle.replay.specs.Pieces.{ends_line, RunOf};
ghost use Rattle.racereplay.specs.Buffered.{TakenIn};

use replay::more;
use replay_loop::Point;

// How many bytes of a text are whole lines: all up to its last byte 10.
fn whole_lines(text: &[u8]) -> usize
    ensures { (result ≤ length text.now) × (ends_line (take result text.now) ≡ true) }
{
    match text.iter().rposition(|byte| *byte == b'\n') {
        Some(last) => last + 1,
        None => 0,
    }
}

// The run behind the lines of a buffer, and how many bytes of a cut line stand in front of it now.
#[derive(Drop)]
pub(crate) struct Taken {
    pub run: Point,
    pub held: usize,
}

// Takes in a buffer that is full:
// taken: if the run is that of a program behind lines of its trace, it is now the one behind those lines and the lines of the buffer, and what
// the buffer had behind them is held;
// held: no more is held than there is room for.
pub(crate) fn take_in(job: &[u32], space: &mut [u32], run: Point, buffer: &mut [u8]) -> Taken
    ensures taken { (program trace : List ℕ) → RunOf program trace job.now space.old run → ends_line trace ≡ true → run.steps + length buffer.old < 18446744073709551616 → TakenIn program trace job.now space.new buffer.old buffer.new result }
    ensures held { result.held ≤ length buffer.new }
{
    let cut = whole_lines(buffer);
    let run = more(job, space, run, &buffer[..cut]);
    buffer.copy_within(cut.., 0);
    let held = buffer.len() - cut;
    Taken { run, held }
}
