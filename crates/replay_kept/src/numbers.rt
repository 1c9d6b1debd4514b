// What a replay tells, in numbers.
ghost use Rattle.std.specs.Prelude.{◌≡◌};
ghost use Rattle.spec.specs.declared.Refusal.TheVariants.{ShortWorkspace};
ghost use Rattle.replay_theory.specs.Replay.{refused as refused_by};
ghost use Rattle.replay_kept.specs.Kept.{told_numbers};

use replay_answers::{RaceNumbers, ending_numbers};
use replay_theory::{Ending, Numbers, Replayed, Report};
use spec::Refusal;

#[derive(Clone, Copy)]
pub struct Told {
    pub ending: Numbers,
    pub steps: usize,
    pub race: RaceNumbers,
}

#[tactic(auto, unfolding(crate::specs::Kept::told_numbers))]
impl From<Replayed> for Told {
    ghost from_gives = { λ r told. told ≡ told_numbers r };

    fn from(r: Replayed) -> Told {
        Told {
            ending: ending_numbers(r.ending),
            steps: r.report.steps,
            race: RaceNumbers::from(r.report.race),
        }
    }
}

// What is told of buffers that are too short.
#[tactic(auto, unfolding(replay_theory::specs::Replay::refused))]
pub fn short_told() -> Told
    ensures { result ≡ told_numbers (refused_by ShortWorkspace) }
{
    Told::from(Replayed {
        ending: Ending::Refused(Refusal::ShortWorkspace),
        report: Report {
            steps: 0,
            race: None,
        },
    })
}
