// What one condition asks of the sheets that the work space holds, judged with its line and its number: on types, on flow, on
// access. Before those of the steps come 44, of the lock lines, and 30, of the start.
#![tactic(auto)]

mod locks;
mod types;

ghost use Rattle.std.specs.Prelude.{◌≡◌, false, option_map};
ghost use Rattle.spec.specs.Conditions.{T, F};
ghost use Rattle.spec.specs.StepContexts.{judge};
ghost use Rattle.workspace.specs.Layout.{map_cell};
ghost use Rattle.conditions.specs.SheetOutcomes.{start_outcome};
ghost use Rattle.conditions.specs.Relation.{HasCell, HasCells, holds_at, held, asked, of_itself, fails, everywhere, has_at_least};

pub use locks::check_locks;
use spec::{Location, MapNumber, Refusal};
pub use types::{agrees, may_show};
use workspace::{MAPS, STRIDE, index, map_cell, wide};

// What is asked of maps, number by number: a = b, a ≥ b, a ≥ n × b, a + b = c, a ≤ n.
#[derive(Clone, Copy, PartialEq, Eq)]
pub enum Relation {
    Equal(MapNumber, MapNumber),
    AtLeast(MapNumber, MapNumber),
    Covers(MapNumber, u32, MapNumber),
    Sum(MapNumber, MapNumber, MapNumber),
    Within(MapNumber, u32),
}

// A condition on types that fails.
#[tactic(auto, unfolding(spec::specs::StepContexts::judge))]
pub fn type_false(line: u32, condition: u32) -> Result<(), Refusal>
    ensures { result ≡ judge line condition (T false) }
{
    Err(Refusal::TypeFalse { line, condition })
}

// What map m has at location l, where the work space has that number.
fn cell(work: &[u32], m: MapNumber, l: usize) -> u32
    requires { HasCell work.now m l }
    ensures { result ≡ map_cell work.now m l }
{
    work[MAPS + STRIDE * index(m.0) + l]
}

// Whether a relation holds at a location.
#[tactic(auto, unfolding(crate::specs::Relation::holds_at, crate::specs::Relation::HasCells))]
fn holds_at(work: &[u32], relation: Relation, p: Location) -> bool
    requires { HasCells work.now relation p.0 }
    ensures { result ≡ holds_at work.now relation p.0 }
{
    let l = index(p.0);
    match relation {
        Relation::Equal(a, b) => cell(work, a, l) == cell(work, b, l),
        Relation::AtLeast(a, b) => cell(work, b, l) <= cell(work, a, l),
        Relation::Covers(a, n, b) => {
            let product = wide(n) * wide(cell(work, b, l));
            product <= wide(cell(work, a, l))
        }
        Relation::Sum(a, b, c) => {
            let sum = wide(cell(work, a, l)) + wide(cell(work, b, l));
            sum == wide(cell(work, c, l))
        }
        Relation::Within(a, n) => cell(work, a, l) <= n,
    }
}

// How many of n locations a map is asked about: all, if the work space has as many of its numbers, so that each is read
// without looking for the end again.
#[tactic(auto, unfolding(crate::specs::Relation::held))]
fn held(work: &[u32], m: MapNumber, n: u32) -> u32
    ensures { result ≡ held work.now m n }
{
    if MAPS + STRIDE * index(m.0) + index(n) <= work.len() {
        n
    } else {
        0
    }
}

// How many of n locations a relation is asked about.
#[tactic(auto, unfolding(crate::specs::Relation::asked))]
fn asked(work: &[u32], relation: Relation, n: u32) -> u32
    ensures { result ≡ asked work.now relation n }
{
    match relation {
        Relation::Equal(a, b) | Relation::AtLeast(a, b) | Relation::Covers(a, _, b) => {
            held(work, a, held(work, b, n))
        }
        Relation::Sum(a, b, c) => held(work, a, held(work, b, held(work, c, n))),
        Relation::Within(a, _) => held(work, a, n),
    }
}

// Whether a relation that each map has to itself is asked of a map and itself.
#[tactic(auto, unfolding(crate::specs::Relation::of_itself))]
fn of_itself(relation: Relation) -> bool
    ensures { result ≡ of_itself relation }
{
    match relation {
        Relation::Equal(a, b) | Relation::AtLeast(a, b) => a == b,
        _ => false,
    }
}

// The lowest location at which a relation fails, if it fails at one. Most that are asked are of a map and itself.
#[tactic(auto, using(crate::proofs::Relations::itself_fails_nowhere))]
fn lowest_failing(work: &[u32], locations: u32, relation: Relation) -> Option<Location>
    ensures { option_map (λ p. p.0) result ≡ fails work.now locations relation }
{
    if of_itself(relation) {
        return None;
    }
    for l in 0..asked(work, relation, locations) {
        if !holds_at(work, relation, Location(l)) {
            return Some(Location(l));
        }
    }
    None
}

// Whether a relation holds at every location.
#[tactic(auto, unfolding(crate::specs::Relation::everywhere, spec::specs::Maps::holds_everywhere))]
fn everywhere(work: &[u32], locations: u32, relation: Relation) -> bool
    ensures { result ≡ everywhere work.now locations relation }
{
    lowest_failing(work, locations, relation).is_none()
}

// A flow condition, refused at the lowest location at which it fails.
#[tactic(auto, unfolding(spec::specs::StepContexts::judge))]
pub fn flow(
    line: u32,
    condition: u32,
    work: &[u32],
    locations: u32,
    relation: Relation,
) -> Result<(), Refusal>
    ensures { result ≡ judge line condition (F (fails work.now locations relation)) }
{
    match lowest_failing(work, locations, relation) {
        None => Ok(()),
        Some(location) => Err(Refusal::FlowFalse {
            line,
            condition,
            location,
        }),
    }
}

// A map has at least so much of a location.
#[tactic(auto, unfolding(spec::specs::StepContexts::judge))]
pub fn holds_at_least(
    line: u32,
    condition: u32,
    work: &[u32],
    m: MapNumber,
    location: Location,
    least: u32,
) -> Result<(), Refusal>
    ensures { result ≡ judge line condition (has_at_least work.now m location least) }
{
    if map_cell(work, m, index(location.0)) < least {
        return Err(Refusal::AccessFalse {
            line,
            condition,
            location,
        });
    }
    Ok(())
}

// 30: the start has at most the whole of each location.
#[tactic(auto, unfolding(crate::specs::SheetOutcomes::start_outcome, spec::specs::Verdict::refuse_over))]
pub fn check_start(
    line: u32,
    work: &[u32],
    denominator: u32,
    locations: u32,
    start: MapNumber,
) -> Result<(), Refusal>
    ensures { result ≡ start_outcome line work.now denominator locations start }
{
    match lowest_failing(work, locations, Relation::Within(start, denominator)) {
        None => Ok(()),
        Some(location) => Err(Refusal::OverOne { line, location }),
    }
}
