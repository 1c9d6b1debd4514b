// The lowest pair of threads that race: the first thread that clashes with a later one, and the first of those.
ghost use Rattle.std.specs.Prelude.{◌≡◌, ◌≤◌};
ghost use Rattle.replay_engine.specs.Races.{names_cell, access_by, access_of, clash as clash_of, partner_from, is_write, any_writes, lowest_pair};

use crate::control_points::control_point_at;
use replay_control::{ControlPoint, Mode, kept_value};
use replay_objects::Thing;
use replay_step::thing_at;
use workspace::{Touch, at, index, rule_of, touch_of};

// The cell that a thread is about to use, by the value that names it.
#[derive(Clone, Copy, PartialEq, Eq)]
pub enum Access {
    Read(u32),
    Write(u32),
}

// Whether v names a cell.
#[tactic(auto, unfolding(crate::specs::Races::names_cell))]
fn names_cell(space: &[u32], v: u32) -> bool
    ensures { result ≡ names_cell space.now v }
{
    matches!(thing_at(space, v), Thing::Cell(_))
}

// What a word that touches a cell so is about to use: `read` the cell that its value names, `write` the one that its first part gave.
#[tactic(auto, unfolding(crate::specs::Races::access_by))]
fn access_by(space: &[u32], u: Touch, f: ControlPoint) -> Option<Access>
    ensures { result ≡ access_by u space.now f }
{
    match u {
        Touch::Nothing => None,
        Touch::Reads => names_cell(space, f.value).then_some(Access::Read(f.value)),
        Touch::Writes => {
            let v = kept_value(space, f.row, f.at);
            names_cell(space, v).then_some(Access::Write(v))
        }
    }
}

// What thread t is about to use.
#[tactic(auto, unfolding(crate::specs::Races::access_of, crate::specs::Races::access_at))]
fn access_of(program: &[u32], space: &[u32], t: u32) -> Option<Access>
    ensures { result ≡ access_of program.now space.now t }
{
    let f = control_point_at(space, t);
    if f.mode == Mode::Ready {
        let r = rule_of(at(program, workspace::WORDS + index(f.at)));
        access_by(space, touch_of(r), f)
    } else {
        None
    }
}

// One of the two is about to write a cell that the other is about to read or write.
#[tactic(auto, unfolding(crate::specs::Races::clash, crate::specs::Races::reads, crate::specs::Races::writes))]
fn clash(a: Option<Access>, b: Option<Access>) -> bool
    ensures { result ≡ clash_of a b }
{
    match a {
        None => false,
        Some(Access::Read(v)) => b == Some(Access::Write(v)),
        Some(Access::Write(v)) => b == Some(Access::Write(v)) || b == Some(Access::Read(v)),
    }
}

// The first thread from i on that clashes with a.
#[tactic(auto, using(crate::proofs::Pairing::partner_turn), unfolding(crate::specs::Races::partner_from, crate::specs::Races::partner_of))]
fn partner_from(
    program: &[u32],
    space: &[u32],
    a: Option<Access>,
    i: u32,
    count: u32,
) -> Option<u32>
    ensures { result ≡ partner_from program.now space.now a i count }
{
    for j in i..count {
        if clash(a, access_of(program, space, j)) {
            return Some(j);
        }
    }
    None
}

#[tactic(auto, unfolding(crate::specs::Races::is_write))]
fn is_write(a: Option<Access>) -> bool
    ensures { result ≡ is_write a }
{
    matches!(a, Some(Access::Write(_)))
}

// Whether any of the threads below `count` is about to write.
#[tactic(auto, using(crate::proofs::Writing::writes_turn), unfolding(crate::specs::Races::any_writes))]
fn any_writes(program: &[u32], space: &[u32], count: u32) -> bool
    ensures { result ≡ any_writes program.now space.now 0 count }
{
    for i in 0..count {
        if is_write(access_of(program, space, i)) {
            return true;
        }
    }
    false
}

// The lowest pair of the threads below `count`, each looked at with each behind it.
#[tactic(auto, using(crate::proofs::Pairing::pair_turn), unfolding(crate::specs::Races::lowest_pair, crate::specs::Races::pair_of, crate::specs::Races::pair_with))]
fn pair_among(program: &[u32], space: &[u32], count: u32) -> Option<(u32, u32)>
    ensures { result ≡ lowest_pair program.now space.now count }
{
    for i in 0..count {
        let a = access_of(program, space, i);
        if let Some(j) = partner_from(program, space, a, i + 1, count) {
            return Some((i, j));
        }
    }
    None
}

// The lowest pair of the threads below `count` that race, the lower thread first. Where none of them is about to write no two race; that
// is asked first, since it costs a look at each and not at each two.
#[tactic(auto, using(crate::proofs::Writing::none_writes))]
pub fn lowest_pair(program: &[u32], space: &[u32], count: u32) -> Option<(u32, u32)>
    ensures { result ≡ lowest_pair program.now space.now count }
{
    if any_writes(program, space, count) {
        pair_among(program, space, count)
    } else {
        None
    }
}
