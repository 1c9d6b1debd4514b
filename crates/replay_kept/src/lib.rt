// A run of a replay as numbers of 64 bits in a lent buffer, one table of their places: whether it goes on, what it tells so far, and the records
// of its threads. What it tells stands there in the numbers that a caller is handed.
#![tactic(auto)]

mod numbers;

ghost use Rattle.std.specs.Prelude.{◌≡◌, ◌+◌, ◌<◌, Option, length, get_or, set, take};
ghost use Rattle.lexer.specs.Numbers.{stored};
ghost use Rattle.replay_theory.specs.declared.Race.{Race};
ghost use Rattle.replay_kept.specs.Kept.{status_number, status_of, record_in, told_in, RecordsKept, RaceKept, FrontKept};

use lexer::narrow;
pub use numbers::{Told, short_told};
use replay_answers::RaceNumbers;
use replay_theory::{Numbers, Race, Status};
use std::array::from_fn;
use threads::{Record, Threads};

// 1 if the run goes on, 0 if it has stopped.
pub const GOES: usize = 0;

// The answer so far.
const NUMBER: usize = 1;

const LINE: usize = 2;

const CONDITION: usize = 3;

const LOCATION: usize = 4;

pub const STEPS: usize = 5;

// 1 if there is a race so far, else 0; and the race.
const RACED: usize = 6;

const STATE: usize = 7;

const FIRST: usize = 8;

const SECOND: usize = 9;

// How many threads there are; and their records, up to 16.
const COUNT: usize = 10;

const STATUSES: usize = 11;

const IDENTIFIERS: usize = 27;

// The end: how many numbers keep a run.
pub const KEPT: usize = 43;

// ---- reading

// The number at a place; 0 past the end.
pub fn at(run: &[u64], i: usize) -> u64
    ensures { result ≡ get_or run.now i 0 }
{
    run.get(i).copied().unwrap_or(0)
}

pub fn count_at(run: &[u64], i: usize) -> usize
    ensures { result ≡ get_or run.now i 0 }
{
    at(run, i) as usize
}

// A number of 32 bits; one that needs more was kept by no run.
fn small_at(run: &[u64], i: usize) -> u32
    ensures { result ≡ stored (get_or run.now i 0) }
{
    narrow(at(run, i))
}

#[tactic(auto, unfolding(crate::specs::Kept::status_of))]
fn status_of(n: u64) -> Status
    ensures { result ≡ status_of n }
{
    match n {
        0 => Status::Running,
        1 => Status::Finished,
        _ => Status::Joined,
    }
}

// A thread's record.
#[tactic(auto, unfolding(crate::specs::Kept::record_in))]
fn record_in(run: &[u64], t: usize) -> Record
    requires { t < 16 }
    ensures { result ≡ record_in run.now t }
{
    Record {
        state: status_of(at(run, STATUSES + t)),
        tid: small_at(run, IDENTIFIERS + t),
    }
}

pub fn threads_in(run: &[u64]) -> Threads
    ensures { RecordsKept result.records run.now × (length result.records ≡ 16) × (result.count ≡ get_or run.now 10 0) }
{
    Threads {
        records: from_fn(|t| record_in(run, t)),
        count: count_at(run, COUNT),
    }
}

// The race that was kept.
pub fn race_in(run: &[u64]) -> Option<Race>
    ensures { (race : Option Race) → RaceKept race run.now → result ≡ race }
{
    if at(run, RACED) == 0 {
        return None;
    }
    Some(Race {
        state: count_at(run, STATE),
        lower: small_at(run, FIRST),
        other: small_at(run, SECOND),
    })
}

// What the run that was kept tells.
#[tactic(auto, unfolding(crate::specs::Kept::told_in, crate::specs::Kept::race_in))]
pub fn told_in(run: &[u64]) -> Told
    ensures { result ≡ told_in run.now }
{
    Told {
        ending: Numbers {
            number: small_at(run, NUMBER),
            line: count_at(run, LINE),
            condition: small_at(run, CONDITION),
            location: small_at(run, LOCATION),
        },
        steps: count_at(run, STEPS),
        race: RaceNumbers {
            state: count_at(run, STATE),
            first: small_at(run, FIRST),
            second: small_at(run, SECOND),
        },
    }
}

// ---- keeping

#[tactic(auto, unfolding(crate::specs::Kept::status_number))]
fn status_number(s: Status) -> u64
    ensures { result ≡ status_number s }
{
    match s {
        Status::Running => 0,
        Status::Finished => 1,
        Status::Joined => 2,
    }
}

fn keep_record(run: &mut [u64; KEPT], t: usize, r: Record)
    requires { t < 16 }
    ensures { (run.new ≡ set (set run.old (11 + t) (status_number r.state)) (27 + t) r.tid) × (r.tid < 4294967296) }
{
    run[STATUSES + t] = status_number(r.state);
    run[IDENTIFIERS + t] = u64::from(r.tid);
}

// The records; the numbers in front of them stay.
pub fn keep_records(run: &mut [u64; KEPT], threads: Threads)
    ensures { RecordsKept threads.records run.new × (take 11 run.new ≡ take 11 run.old) }
{
    for (t, record) in threads.records.iter().enumerate() {
        keep_record(run, t, *record);
    }
}

// The numbers in front of the records.
pub fn keep_front(run: &mut [u64; KEPT], goes: u64, told: Told, raced: u64, count: usize)
    ensures { FrontKept goes told raced count run.old run.new }
{
    run[GOES] = goes;
    run[NUMBER] = u64::from(told.ending.number);
    run[LINE] = told.ending.line as u64;
    run[CONDITION] = u64::from(told.ending.condition);
    run[LOCATION] = u64::from(told.ending.location);
    run[STEPS] = told.steps as u64;
    run[RACED] = raced;
    run[STATE] = told.race.state as u64;
    run[FIRST] = u64::from(told.race.first);
    run[SECOND] = u64::from(told.race.second);
    run[COUNT] = count as u64;
}
