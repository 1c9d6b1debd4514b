// Thread records: each thread of a run is running, finished or joined, with the identifier that a join asks for.
#![tactic(auto)]

ghost use Rattle.std.specs.Prelude.{◌≡◌, ◌<◌};
ghost use Rattle.threads.specs.Records.{matching, lowest};
ghost use Rattle.threads.specs.Threads.{started, spawned as spawned_of, turned, finished as finished_of, joined as joined_of, is_running, runs as runs_of};

use replay_theory::Status;

// The most threads of a run.
pub const LIMIT: usize = 16;

#[derive(Clone, Copy)]
pub struct Record {
    pub state: Status,
    pub tid: u32,
}

// Whether a record is of a finished thread with that identifier.
#[tactic(auto, unfolding(crate::specs::Records::matching, crate::specs::Records::if_finished))]
fn matching(r: Record, tid: u32) -> bool
    ensures { result ≡ matching r tid }
{
    r.state == Status::Finished && r.tid == tid
}

// "Among several finished threads a join takes the lowest": the lowest finished one with that identifier.
#[tactic(auto, unfolding(crate::specs::Records::lowest))]
pub fn lowest_finished(rs: &[Record], tid: u32) -> Option<usize>
    ensures { result ≡ lowest rs.now tid }
{
    rs.iter().position(|r| matching(*r, tid))
}

// The records of a run in spawn order, and how many of them are threads.
#[derive(Clone, Copy)]
pub struct Threads {
    pub records: [Record; LIMIT],
    pub count: usize,
}

impl Threads {
    // One thread, with that identifier.
    #[tactic(auto, unfolding(crate::specs::Threads::started))]
    pub fn start(tid: u32) -> Threads
        ensures { result ≡ started tid }
    {
        Threads {
            records: [Record {
                state: Status::Running,
                tid,
            }; LIMIT],
            count: 1,
        }
    }

    // One more thread, running, if there is room for it.
    #[tactic(auto, unfolding(crate::specs::Threads::spawned))]
    pub fn spawned(mut self, tid: u32) -> Threads
        ensures { result ≡ spawned_of self tid }
    {
        if self.count < LIMIT {
            self.records[self.count] = Record {
                state: Status::Running,
                tid,
            };
            self.count += 1;
        }
        self
    }

    // The record of thread t says so from now on; the thread keeps its identifier.
    #[tactic(auto, unfolding(crate::specs::Threads::turned, crate::specs::Records::no_record))]
    fn turned(mut self, t: usize, state: Status) -> Threads
        ensures { result ≡ turned state self t }
    {
        if t < LIMIT {
            self.records[t].state = state;
        }
        self
    }

    // Thread t has finished.
    #[tactic(auto, unfolding(crate::specs::Threads::finished))]
    pub fn finished(self, t: usize) -> Threads
        ensures { result ≡ finished_of self t }
    {
        self.turned(t, Status::Finished)
    }

    // Thread t has been joined.
    pub fn joined(self, t: usize) -> Threads
        ensures { result ≡ joined_of self t }
    {
        self.turned(t, Status::Joined)
    }

    // Whether t is a thread that is running.
    #[tactic(auto, unfolding(crate::specs::Threads::runs, crate::specs::Threads::is_running, crate::specs::Records::no_record))]
    pub fn runs(self, t: usize) -> bool
        ensures { result ≡ runs_of self t }
    {
        t < self.count && t < LIMIT && self.records[t].state == Status::Running
    }

    // The lowest finished thread with that identifier.
    pub fn lowest(self, tid: u32) -> Option<usize>
        ensures { result ≡ lowest self.records tid }
    {
        lowest_finished(&self.records, tid)
    }
}
