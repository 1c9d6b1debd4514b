// What a replay answers and reports, in numbers: its ending and its race; in `line` the line that `racereplay` writes of them.
#![tactic(auto)]

mod line;

ghost use Rattle.std.specs.Prelude.{◌≡◌};
ghost use Rattle.replay_theory.specs.Replay.{line_numbers, returned_for};
ghost use Rattle.replay_theory.specs.declared.Ending.TheVariants.{Refused as EndsRefused};
ghost use Rattle.replay_answers.specs.Numbers.{race_numbers};

pub use line::write_line;
use replay_theory::{Ending, Numbers, Race};
use spec::{Answer, Refusal};

// The state and the threads of a race in numbers; without one, the largest number of each kind.
#[derive(Clone, Copy)]
pub struct RaceNumbers {
    pub state: usize,
    pub first: u32,
    pub second: u32,
}

#[tactic(auto, unfolding(crate::specs::Numbers::race_numbers))]
impl From<Option<Race>> for RaceNumbers {
    ghost from_gives = { λ race numbers. numbers ≡ race_numbers race };

    fn from(race: Option<Race>) -> RaceNumbers {
        match race {
            None => RaceNumbers {
                state: usize::MAX,
                first: u32::MAX,
                second: u32::MAX,
            },
            Some(race) => RaceNumbers {
                state: race.state,
                first: race.lower,
                second: race.other,
            },
        }
    }
}

#[tactic(auto, unfolding(replay_theory::specs::Replay::line_numbers))]
fn line_numbers(number: u32, line: usize) -> Numbers
    ensures { result ≡ line_numbers number line }
{
    Numbers {
        number,
        line,
        condition: 0,
        location: 0,
    }
}

#[tactic(auto, unfolding(replay_theory::specs::Replay::returned_for, replay_theory::specs::Replay::sheet_numbers))]
fn sheet_numbers(r: Refusal) -> Numbers
    ensures { result ≡ returned_for (EndsRefused r) }
{
    let four = answers::numbers_of(Answer::Refuse(r));
    Numbers {
        number: four.number,
        line: four.line as usize,
        condition: four.condition,
        location: four.location,
    }
}

// The four numbers of an ending.
#[tactic(auto, unfolding(replay_theory::specs::Replay::returned_for))]
pub fn ending_numbers(ending: Ending) -> Numbers
    ensures { result ≡ returned_for ending }
{
    match ending {
        Ending::Done => line_numbers(0, 0),
        Ending::Refused(r) => sheet_numbers(r),
        Ending::TraceForm(k) => line_numbers(46, k),
        Ending::NoStep(k) => line_numbers(47, k),
        Ending::PastLimit(k) => line_numbers(48, k),
    }
}
