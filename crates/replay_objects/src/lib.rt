// The things of a run, which names name, and what a word does with the one that it is about: a function for each word, and the table of
// them by rule. In the lent space a thing is three numbers.
#![tactic(auto)]

ghost use Rattle.std.specs.Prelude.{◌≡◌};
ghost use Rattle.replay_objects.specs.Stored.{numbers_of, thing_of};
ghost use Rattle.replay_objects.specs.Uses.{spawned_of, joined_of, read_of, written_of, locked_of, unlocked_of, posted_of, waited_of, rdlocked_of, rdunlocked_of, wrlocked_of, wrunlocked_of, effect_of};

use workspace::Rule;

// What a name names.
#[derive(Clone, Copy, PartialEq, Eq)]
pub enum Thing {
    // An unused name, or a constant.
    Unused,
    Identifier,
    // The value that it holds.
    Cell(u32),
    // Whether it is closed.
    Lock(bool),
    // Its count.
    Semaphore(u64),
    // Nobody or readers are in.
    Rwlock { places: u32, readers: u32 },
    // A read-write lock with a writer in.
    Written { places: u32 },
}

// The numbers that stand for a thing in the lent space: its kind, and two numbers of it, of a count the lower and the upper half.
#[derive(Clone, Copy, PartialEq, Eq)]
pub struct Slot {
    pub kind: u32,
    pub first: u32,
    pub second: u32,
}

impl Slot {
    // The numbers of a thing.
    #[tactic(auto, unfolding(crate::specs::Stored::numbers_of))]
    pub fn of(x: Thing) -> Slot
        ensures { result ≡ numbers_of x }
    {
        let (kind, first, second) = match x {
            Thing::Unused => (0, 0, 0),
            Thing::Identifier => (1, 0, 0),
            Thing::Cell(v) => (2, v, 0),
            Thing::Lock(closed) => (3, u32::from(closed), 0),
            Thing::Semaphore(n) => (4, (n & 0xffff_ffff) as u32, (n >> 32) as u32),
            Thing::Rwlock { places, readers } => (5, places, readers),
            Thing::Written { places } => (6, places, 0),
        };
        Slot {
            kind,
            first,
            second,
        }
    }

    // The thing of these numbers; a kind that stands for none names nothing.
    #[tactic(auto, unfolding(crate::specs::Stored::thing_of))]
    pub fn thing(self) -> Thing
        ensures { result ≡ thing_of self }
    {
        match self.kind {
            1 => Thing::Identifier,
            2 => Thing::Cell(self.first),
            3 => Thing::Lock(self.first != 0),
            4 => Thing::Semaphore(u64::from(self.first) + 4_294_967_296 * u64::from(self.second)),
            5 => Thing::Rwlock {
                places: self.first,
                readers: self.second,
            },
            6 => Thing::Written { places: self.first },
            _ => Thing::Unused,
        }
    }
}

// The word becomes a value; or it becomes 0 and leaves this where it was; or it becomes the name of a new thing; or it spawns, or
// joins, a thread with that identifier.
#[derive(Clone, Copy, PartialEq, Eq)]
pub enum StepEffect {
    Returns(u32),
    Updates(Thing),
    Makes(Thing),
    Spawns,
    Joins,
}

#[tactic(auto, unfolding(crate::specs::Uses::spawned_of))]
fn spawned(x: Thing) -> Option<StepEffect>
    ensures { result ≡ spawned_of x }
{
    match x {
        Thing::Identifier => Some(StepEffect::Spawns),
        _ => None,
    }
}

#[tactic(auto, unfolding(crate::specs::Uses::joined_of))]
fn joined(x: Thing) -> Option<StepEffect>
    ensures { result ≡ joined_of x }
{
    match x {
        Thing::Identifier => Some(StepEffect::Joins),
        _ => None,
    }
}

#[tactic(auto, unfolding(crate::specs::Uses::read_of))]
fn read(x: Thing) -> Option<StepEffect>
    ensures { result ≡ read_of x }
{
    match x {
        Thing::Cell(v) => Some(StepEffect::Returns(v)),
        _ => None,
    }
}

#[tactic(auto, unfolding(crate::specs::Uses::written_of))]
fn written(x: Thing, v: u32) -> Option<StepEffect>
    ensures { result ≡ written_of x v }
{
    match x {
        Thing::Cell(_) => Some(StepEffect::Updates(Thing::Cell(v))),
        _ => None,
    }
}

#[tactic(auto, unfolding(crate::specs::Uses::locked_of))]
fn locked(x: Thing) -> Option<StepEffect>
    ensures { result ≡ locked_of x }
{
    match x {
        Thing::Lock(false) => Some(StepEffect::Updates(Thing::Lock(true))),
        _ => None,
    }
}

// An open lock stays open.
#[tactic(auto, unfolding(crate::specs::Uses::unlocked_of))]
fn unlocked(x: Thing) -> Option<StepEffect>
    ensures { result ≡ unlocked_of x }
{
    match x {
        Thing::Lock(_) => Some(StepEffect::Updates(Thing::Lock(false))),
        _ => None,
    }
}

// The largest count is never reached: it would take as many lines.
#[tactic(auto, unfolding(crate::specs::Uses::posted_of))]
fn posted(x: Thing) -> Option<StepEffect>
    ensures { result ≡ posted_of x }
{
    match x {
        Thing::Semaphore(n) if n < u64::MAX => Some(StepEffect::Updates(Thing::Semaphore(n + 1))),
        _ => None,
    }
}

#[tactic(auto, unfolding(crate::specs::Uses::waited_of))]
fn waited(x: Thing) -> Option<StepEffect>
    ensures { result ≡ waited_of x }
{
    match x {
        Thing::Semaphore(n) if 0 < n => Some(StepEffect::Updates(Thing::Semaphore(n - 1))),
        _ => None,
    }
}

#[tactic(auto, unfolding(crate::specs::Uses::rdlocked_of))]
fn rdlocked(x: Thing) -> Option<StepEffect>
    ensures { result ≡ rdlocked_of x }
{
    match x {
        Thing::Rwlock { places, readers } if readers < places => {
            Some(StepEffect::Updates(Thing::Rwlock {
                places,
                readers: readers + 1,
            }))
        }
        _ => None,
    }
}

#[tactic(auto, unfolding(crate::specs::Uses::rdunlocked_of))]
fn rdunlocked(x: Thing) -> Option<StepEffect>
    ensures { result ≡ rdunlocked_of x }
{
    match x {
        Thing::Rwlock { places, readers } if 0 < readers => {
            Some(StepEffect::Updates(Thing::Rwlock {
                places,
                readers: readers - 1,
            }))
        }
        _ => None,
    }
}

#[tactic(auto, unfolding(crate::specs::Uses::wrlocked_of))]
fn wrlocked(x: Thing) -> Option<StepEffect>
    ensures { result ≡ wrlocked_of x }
{
    match x {
        Thing::Rwlock { places, readers: 0 } => {
            Some(StepEffect::Updates(Thing::Written { places }))
        }
        _ => None,
    }
}

#[tactic(auto, unfolding(crate::specs::Uses::wrunlocked_of))]
fn wrunlocked(x: Thing) -> Option<StepEffect>
    ensures { result ≡ wrunlocked_of x }
{
    match x {
        Thing::Written { places } => {
            Some(StepEffect::Updates(Thing::Rwlock { places, readers: 0 }))
        }
        _ => None,
    }
}

// The word of that rule, if it can step: x is what it is about, v the value that it stores, or the reading places of a new read-write
// lock. The words of a thread alone use nothing.
#[tactic(auto, unfolding(crate::specs::Uses::effect_of))]
pub fn effect_of(r: Rule, x: Thing, v: u32) -> Option<StepEffect>
    ensures { result ≡ effect_of r x v }
{
    match r {
        Rule::NEWT => Some(StepEffect::Makes(Thing::Identifier)),
        Rule::SPAWN => spawned(x),
        Rule::JOIN => joined(x),
        Rule::REF => Some(StepEffect::Makes(Thing::Cell(v))),
        Rule::WRITE => written(x, v),
        Rule::READ => read(x),
        Rule::NEWL => Some(StepEffect::Makes(Thing::Lock(false))),
        Rule::LCK => locked(x),
        Rule::ULCK => unlocked(x),
        Rule::NEWSEM => Some(StepEffect::Makes(Thing::Semaphore(0))),
        Rule::POST => posted(x),
        Rule::WAIT => waited(x),
        Rule::NEWRWLOCK => Some(StepEffect::Makes(Thing::Rwlock {
            places: v,
            readers: 0,
        })),
        Rule::RDLOCK => rdlocked(x),
        Rule::RDUNLOCK => rdunlocked(x),
        Rule::WRLOCK => wrlocked(x),
        Rule::WRUNLOCK => wrunlocked(x),
        Rule::VAR | Rule::INT | Rule::LET | Rule::IF | Rule::WHILE | Rule::CALL => None,
    }
}
