// The offered calls with an entry each for callers in Rust and C: the number is returned, and the other three numbers of an answer
// are stored. The crate `entries_c` exports them to C.
#![tactic(auto)]

ghost use Rattle.std.specs.Prelude.{◌≡◌, None, List, [], ◌++◌, true, false, ◌↔◌, ℕ, ◌+◌, ◌≤◌, ◌<◌, length, take, drop};
ghost use Rattle.spec.specs.Program.{Program};
ghost use Rattle.spec.specs.Split.{Map, Split};
ghost use Rattle.spec.specs.Accepted.{Right};
ghost use Rattle.spec.specs.Verdict.{verdict, returned, numbers4, on_conditions};
ghost use Rattle.spec.specs.Workspace.{workspace_size, workspace_after};
ghost use Rattle.spec.specs.declared.Answer.TheVariants.{Accept};
ghost use Rattle.drill_theory.specs.Pair.{program_of, split_of};
ghost use Rattle.text_theory.specs.Text.{in_front};
ghost use Rattle.drill.specs.Answer.{drilled_numbers, answer_of};
ghost use Rattle.soundness.specs.SafeText.{SafeText};
ghost use Rattle.soundness.specs.EitherOrderText.{EitherOrderText};
ghost use Rattle.checker.specs.Promise.{RefutedAs};
ghost use Rattle.fill_theory.specs.AfterMaps.{AfterMaps};
ghost use Rattle.fill_theory.specs.Answer.{fill as filling, returned_for, buffer_after, Fillable, FilledSheet, GreatestOverLimits};
ghost use Rattle.spec.specs.declared.Refusal.TheVariants.{ShortWorkspace};
ghost use Rattle.replay_theory.specs.Replay.{replay_space, replay as replayed, refused as refused_by, returned_for as ending_numbers};
ghost use Rattle.replay_theory.specs.Claim.{TraceFollowed, RaceFound};
ghost use Rattle.replay_answers.specs.Numbers.{answer_told, race_numbers, race_told, Stored};
ghost use Rattle.replay.specs.Pieces.{ends_line, job_size};
ghost use Rattle.replay_kept.specs.Kept.{kept_size};
ghost use Rattle.replay_pieces.specs.Pieces.{roomy, answer_number, FrontUsed, KeptRun};

use replay_kept::Told;
use spec::{Answer, Returned};

// Stores three of the numbers of an answer, and returns the first.
#[tactic(auto, unfolding(spec::specs::Verdict::numbers4))]
fn store_answer(four: Returned, line: &mut u32, condition: &mut u32, location: &mut u32) -> u32
    ensures { numbers4 result line.new condition.new location.new ≡ four }
{
    *line = four.line;
    *condition = four.condition;
    *location = four.location;
    four.number
}

// Stores what a replay tells but for the number of its answer, which is returned.
fn store_told(
    told: Told,
    line: &mut u64,
    condition: &mut u32,
    location: &mut u32,
    steps: &mut u64,
    state: &mut u64,
    first: &mut u32,
    second: &mut u32,
) -> u32
    ensures { (answer_told result line.new condition.new location.new ≡ told.ending) × (steps.new ≡ told.steps) × (race_told state.new first.new second.new ≡ told.race) }
{
    *line = told.ending.line as u64;
    *condition = told.ending.condition;
    *location = told.ending.location;
    *steps = told.steps as u64;
    *state = told.race.state as u64;
    *first = told.race.first;
    *second = told.race.second;
    told.ending.number
}

// The answer to a pair of texts: `check` of the crate `checker`, clause by clause.
pub fn racecheck_check(
    program: &[u8],
    split: &[u8],
    work: &mut [u32],
    line: &mut u32,
    condition: &mut u32,
    location: &mut u32,
) -> u32
    ensures answer { numbers4 result line.new condition.new location.new ≡ returned (verdict (length work.old) program.now split.now) }
    ensures cleared { work.new ≡ workspace_after work.old }
    ensures unchanged { (program.exit.now ≡ program.entry.now) × (split.exit.now ≡ split.entry.now) }
    ensures derivation { workspace_size ≤ length work.old → (numbers4 result line.new condition.new location.new ≡ numbers4 0 0 0 0) ↔ Right program.now split.now }
    ensures first_false { on_conditions result ≡ true → RefutedAs program.now split.now (numbers4 result line.new condition.new location.new) }
    ensures safe { numbers4 result line.new condition.new location.new ≡ numbers4 0 0 0 0 → SafeText program.now }
    ensures either_order { numbers4 result line.new condition.new location.new ≡ numbers4 0 0 0 0 → EitherOrderText program.now }
{
    let four = answers::numbers_of(checker::check(program, split, work));
    store_answer(four, line, condition, location)
}

// The practice pair of a seed: `drill` of the crate `drill`, clause by clause. On 38 the three numbers stored are 0.
pub fn racecheck_drill(
    seed: u32,
    program: &mut [u8],
    split: &mut [u8],
    next: &mut u32,
    program_length: &mut u32,
    split_length: &mut u32,
) -> u32
    ensures answer { drilled_numbers result next.new program_length.new split_length.new ≡ answer_of seed (length program.old) (length split.old) }
    ensures written { result ≡ 0 → (program.new ≡ in_front (program_of seed) program.old) × (split.new ≡ in_front (split_of seed) split.old) }
    ensures unchanged { result ≡ 38 → (program.new ≡ program.old) × (split.new ≡ split.old) }
    ensures accepted { result ≡ 0 → verdict workspace_size (take program_length.new program.new) (take split_length.new split.new) ≡ Accept }
{
    match drill::drill(seed, program, split) {
        Some(drilled) => {
            *next = drilled.next;
            *program_length = drilled.program;
            *split_length = drilled.split;
            0
        }
        None => {
            *next = 0;
            *program_length = 0;
            *split_length = 0;
            38
        }
    }
}

// The whole sheet for a pair of texts whose split leaves its after-maps out: `fill` of the crate `fill`, clause by clause.
pub fn racecheck_fill(
    program: &[u8],
    split: &[u8],
    work: &mut [u32],
    out: &mut [u8],
    length_or_line: &mut u32,
    condition: &mut u32,
    location: &mut u32,
) -> u32
    ensures answer { numbers4 result length_or_line.new condition.new location.new ≡ returned_for (filling (length work.old) (length out.old) program.now split.now) }
    ensures written { out.new ≡ buffer_after (filling (length work.old) (length out.old) program.now split.now) out.old }
    ensures cleared { work.new ≡ workspace_after work.old }
    ensures unchanged { (program.exit.now ≡ program.entry.now) × (split.exit.now ≡ split.entry.now) }
    ensures solvable { (P : Program) (S : Split) → Fillable (length work.old) program.now split.now P S → (numbers4 result length_or_line.new condition.new location.new ≡ numbers4 41 0 0 0) ↔ ((σ : List Map) → AfterMaps P S σ → ⊥) }
    ensures too_large { (P : Program) (S : Split) → Fillable (length work.old) program.now split.now P S → (numbers4 result length_or_line.new condition.new location.new ≡ numbers4 42 0 0 0) ↔ GreatestOverLimits (length out.old) P S }
    ensures greatest { result ≡ 0 → FilledSheet (length work.old) (length out.old) program.now split.now (take length_or_line.new out.new) }
    ensures accepted { result ≡ 0 → verdict (length work.old) program.now (take length_or_line.new out.new) ≡ Accept }
{
    match fill::fill(program, split, work, out) {
        Ok(length) => {
            *length_or_line = length;
            *condition = 0;
            *location = 0;
            0
        }
        Err(r) => {
            let four = answers::numbers_of(Answer::Refuse(r));
            store_answer(four, length_or_line, condition, location)
        }
    }
}

// The replay of a program and a trace: `replay` of the crate `replay`, clause by clause. Without a race, the state and the two threads are the largest numbers
// of their kinds.
pub fn racecheck_replay(
    program: &[u8],
    trace: &[u8],
    space: &mut [u32],
    line: &mut u64,
    condition: &mut u32,
    location: &mut u32,
    steps: &mut u64,
    state: &mut u64,
    first: &mut u32,
    second: &mut u32,
) -> u32
    ensures answer { answer_told result line.new condition.new location.new ≡ ending_numbers (replayed (length space.old) program.now trace.now).ending }
    ensures report { (steps.new ≡ (replayed (length space.old) program.now trace.now).report.steps) × (race_told state.new first.new second.new ≡ race_numbers (replayed (length space.old) program.now trace.now).report.race) }
    ensures unchanged { (program.exit.now ≡ program.entry.now) × (trace.exit.now ≡ trace.entry.now) }
    ensures kept { length space.old < replay_space → space.new ≡ space.old }
    ensures free { (length space.new ≡ length space.old) × (drop replay_space space.new ≡ drop replay_space space.old) }
    ensures stops { TraceFollowed (length space.old) program.now trace.now steps.new (answer_told result line.new condition.new location.new) }
    ensures first_race { Stored (RaceFound (length space.old) program.now trace.now) state.new first.new second.new }
    ensures safe { (room : ℕ) (split : List ℕ) → verdict room program.now split ≡ Accept → race_told state.new first.new second.new ≡ race_numbers None }
{
    let told = Told::from(replay::replay(program, trace, space));
    store_told(told, line, condition, location, steps, state, first, second)
}

// The same of a trace that comes in pieces, all of it kept in three lent buffers: `begin` of the crate `replay_pieces`, clause by clause.
pub fn racecheck_replay_begin(
    program: &[u8],
    job: &mut [u32],
    space: &mut [u32],
    run: &mut [u64],
) -> u32
    ensures begun { roomy job.old run.old ≡ true → KeptRun program.now [] job.new space.new run.new }
    ensures answer { roomy job.old run.old ≡ true → result ≡ answer_number (length space.old) program.now [] }
    ensures short { roomy job.old run.old ≡ false → (result ≡ 1) × (job.new ≡ job.old) × (space.new ≡ space.old) × (run.new ≡ run.old) }
    ensures unchanged { program.exit.now ≡ program.entry.now }
    ensures kept { length space.old < replay_space → space.new ≡ space.old }
    ensures free { FrontUsed job_size job.old job.new × FrontUsed replay_space space.old space.new × FrontUsed kept_size run.old run.new }
{
    replay_pieces::begin(program, job, space, run)
}

// `more` of the crate `replay_pieces`, clause by clause.
pub fn racecheck_replay_more(job: &[u32], space: &mut [u32], run: &mut [u64], piece: &[u8]) -> u32
    ensures goes_on { (program trace : List ℕ) → KeptRun program trace job.now space.old run.old → ends_line trace ≡ true → (replayed (length space.old) program trace).report.steps + length piece.now < 18446744073709551616 → KeptRun program (trace ++ piece.now) job.now space.new run.new }
    ensures answer { (program trace : List ℕ) → KeptRun program trace job.now space.old run.old → ends_line trace ≡ true → (replayed (length space.old) program trace).report.steps + length piece.now < 18446744073709551616 → result ≡ answer_number (length space.old) program (trace ++ piece.now) }
    ensures short { roomy job.now run.old ≡ false → (result ≡ 1) × (space.new ≡ space.old) × (run.new ≡ run.old) }
    ensures unchanged { (job.exit.now ≡ job.entry.now) × (piece.exit.now ≡ piece.entry.now) }
    ensures kept { length space.old < replay_space → space.new ≡ space.old }
    ensures free { FrontUsed replay_space space.old space.new × FrontUsed kept_size run.old run.new }
{
    replay_pieces::more(job, space, run, piece)
}

// What `racecheck_replay` says of a program and a trace, of the run of both that the buffers hold: `told` of the crate `replay_pieces`. Of a run
// that has no room it says what a replay says of a short space.
pub fn racecheck_replay_told(
    run: &[u64],
    line: &mut u64,
    condition: &mut u32,
    location: &mut u32,
    steps: &mut u64,
    state: &mut u64,
    first: &mut u32,
    second: &mut u32,
) -> u32
    ensures answer { (program trace job space : List ℕ) → KeptRun program trace job space run.now → answer_told result line.new condition.new location.new ≡ ending_numbers (replayed (length space) program trace).ending }
    ensures report { (program trace job space : List ℕ) → KeptRun program trace job space run.now → (steps.new ≡ (replayed (length space) program trace).report.steps) × (race_told state.new first.new second.new ≡ race_numbers (replayed (length space) program trace).report.race) }
    ensures short { length run.now < kept_size → (answer_told result line.new condition.new location.new ≡ ending_numbers (refused_by ShortWorkspace).ending) × (steps.new ≡ 0) × (race_told state.new first.new second.new ≡ race_numbers None) }
    ensures unchanged { run.exit.now ≡ run.entry.now }
    ensures stops { (program trace job space : List ℕ) → KeptRun program trace job space run.now → TraceFollowed (length space) program trace steps.new (answer_told result line.new condition.new location.new) }
    ensures first_race { (program trace job space : List ℕ) → KeptRun program trace job space run.now → Stored (RaceFound (length space) program trace) state.new first.new second.new }
    ensures safe { (program trace job space : List ℕ) → KeptRun program trace job space run.now → (room : ℕ) (split : List ℕ) → verdict room program split ≡ Accept → race_told state.new first.new second.new ≡ race_numbers None }
{
    let told = replay_pieces::told(run);
    store_told(told, line, condition, location, steps, state, first, second)
}
