// The four numbers that document 01 returns for an answer; in `line` the line that `racecheck` writes of them.
#![tactic(auto)]

mod line;

ghost use Rattle.std.specs.Prelude.{◌≡◌};
ghost use Rattle.spec.specs.Verdict.{returned, numbers4 as four_of};
ghost use Rattle.spec.specs.declared.Answer.TheVariants.{Refuse};

pub use line::write_line;
use spec::{Answer, Refusal, Returned};

#[tactic(auto, unfolding(spec::specs::Verdict::numbers4))]
fn four_numbers(number: u32, line: u32, condition: u32, location: u32) -> Returned
    ensures { result ≡ four_of number line condition location }
{
    Returned {
        number,
        line,
        condition,
        location,
    }
}

#[tactic(auto, unfolding(spec::specs::Verdict::returned))]
fn refusal_numbers(r: Refusal) -> Returned
    ensures { result ≡ returned (Refuse r) }
{
    match r {
        Refusal::ShortWorkspace => four_numbers(1, 0, 0, 0),
        Refusal::LongProgram => four_numbers(10, 0, 0, 0),
        Refusal::ProgramForm(k) => four_numbers(11, k, 0, 0),
        Refusal::ProgramRange(k) => four_numbers(12, k, 0, 0),
        Refusal::ProgramLines(k) => four_numbers(13, k, 0, 0),
        Refusal::Unbound(k) => four_numbers(14, k, 0, 0),
        Refusal::Rebound(k) => four_numbers(15, k, 0, 0),
        Refusal::LongSplit => four_numbers(20, 0, 0, 0),
        Refusal::SplitForm(k) => four_numbers(21, k, 0, 0),
        Refusal::SplitRange(k) => four_numbers(22, k, 0, 0),
        Refusal::SplitLines(k) => four_numbers(23, k, 0, 0),
        Refusal::NoStart(k) => four_numbers(40, k, 0, 0),
        Refusal::OverOne { line, location } => four_numbers(30, line, 0, location.0),
        Refusal::TypeFalse { line, condition } => four_numbers(31, line, condition, 0),
        Refusal::FlowFalse {
            line,
            condition,
            location,
        } => four_numbers(32, line, condition, location.0),
        Refusal::AccessFalse {
            line,
            condition,
            location,
        } => four_numbers(33, line, condition, location.0),
        Refusal::NoAfterMaps => four_numbers(41, 0, 0, 0),
        Refusal::TooLarge => four_numbers(42, 0, 0, 0),
        Refusal::TooManyMaps => four_numbers(43, 0, 0, 0),
        Refusal::LockTakesLess(k) => four_numbers(44, k, 0, 0),
        Refusal::Freelock(k) => four_numbers(45, k, 0, 0),
        Refusal::NoProcedure(k) => four_numbers(49, k, 0, 0),
        Refusal::NoKept(k) => four_numbers(50, k, 0, 0),
    }
}

#[tactic(auto, unfolding(spec::specs::Verdict::returned))]
pub fn numbers_of(a: Answer) -> Returned
    ensures { result ≡ returned a }
{
    match a {
        Answer::Accept => four_numbers(0, 0, 0, 0),
        Answer::Refuse(r) => refusal_numbers(r),
    }
}
