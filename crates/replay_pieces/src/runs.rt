// A run as it is kept between two pieces. One that has stopped is told from its numbers, and never made anew.
ghost use Rattle.std.specs.Prelude.{◌≡◌, length};
ghost use Rattle.replay_loop.specs.declared.Point.{Point as Run};
ghost use Rattle.replay.specs.Pieces.{telling};
ghost use Rattle.replay_kept.specs.Kept.{told_numbers};
ghost use Rattle.replay_pieces.specs.Runs.{at_start, Keeps};

use replay_kept::{KEPT, STEPS, Told, keep_front, keep_records, race_in, threads_in};
use replay_loop::Point;

// The run that was kept, if it goes on, with no piece at hand.
pub(crate) fn point_in(run: &[u64; KEPT]) -> Point
    ensures { (q : Run) → Keeps q run.now → length q.threads.records ≡ 16 → result ≡ at_start q }
{
    Point {
        ending: None,
        threads: threads_in(run),
        at: 0,
        steps: run[STEPS] as usize,
        race: race_in(run),
    }
}

// Keeps a run, and gives the number of its answer so far.
pub(crate) fn keep(run: &mut [u64; KEPT], p: Point) -> u32
    ensures { Keeps p run.new × (result ≡ (told_numbers (telling p)).ending.number) }
{
    let told = Told::from(replay::told(p));
    keep_records(run, p.threads);
    keep_front(
        run,
        u64::from(p.ending.is_none()),
        told,
        u64::from(p.race.is_some()),
        p.threads.count,
    );
    told.ending.number
}
