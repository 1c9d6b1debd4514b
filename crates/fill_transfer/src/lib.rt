// The transfer function of a step at a location: how the number flows through it, from the constants that the work space holds. `steps`
// applies it.
#![tactic(auto)]

pub mod steps;

ghost use Rattle.std.specs.Prelude.{◌≡◌, ◌<◌};
ghost use Rattle.spec.specs.Kinds.{ref_location, first_map, second_map};
ghost use Rattle.workspace.specs.Layout.{word_by};
ghost use Rattle.fill_theory.specs.Flow.{taking, giving, needing, lending};
ghost use Rattle.fill_transfer.specs.Transfers.{cell_in, type_line_in, first_in, second_in, lending_in, start_number_in, before_in, after_in, calling_in, access_in, transfer_of, transfer_in};

use fill_theory::{BinaryTransfer, Effect, Transfer, UnaryTransfer};
use spec::{Location, MapNumber, TypeLine, TypeNumber};
use workspace::{
    ROW_TYPES, Rule, SIG_AFTERS, SIG_BEFORES, STARTS, VALUES, WORDS, at, index, map_cell, rule_of,
    type_at,
};

// The location that is filled, and the sheet's denominator.
#[derive(Clone, Copy)]
pub struct Column {
    pub location: Location,
    pub denominator: u32,
}

// A step that keeps the number, takes from it, gives to it, needs it to be large enough, or takes from it what it lends.
const UNCHANGED: Effect = Effect {
    takes: 0,
    gives: 0,
    needs: 0,
    lends: 0,
};

#[tactic(auto, unfolding(fill_theory::specs::Flow::taking))]
pub fn taking(takes: u32) -> Effect
    ensures { result ≡ taking takes }
{
    Effect { takes, ..UNCHANGED }
}

#[tactic(auto, unfolding(fill_theory::specs::Flow::giving))]
fn giving(gives: u32) -> Effect
    ensures { result ≡ giving gives }
{
    Effect { gives, ..UNCHANGED }
}

#[tactic(auto, unfolding(fill_theory::specs::Flow::needing))]
fn needing(needs: u32) -> Effect
    ensures { result ≡ needing needs }
{
    Effect { needs, ..UNCHANGED }
}

#[tactic(auto, unfolding(fill_theory::specs::Flow::lending))]
fn lending(lends: u64, takes: u32) -> Effect
    ensures { result ≡ lending lends takes }
{
    Effect {
        takes,
        lends,
        ..UNCHANGED
    }
}

// The first map of a type: K of a tid or sem, in of a lock, r of a rwlock.
#[tactic(auto, unfolding(spec::specs::Kinds::first_map))]
fn first_map(t: TypeLine) -> MapNumber
    ensures { result ≡ first_map t }
{
    match t {
        TypeLine::Int | TypeLine::Ref(_, _) => MapNumber(0),
        TypeLine::Lock(k, _) | TypeLine::Tid(k) | TypeLine::Sem(k) | TypeLine::Rwlock(k, _) => k,
    }
}

// The second: out of a lock, w of a rwlock.
#[tactic(auto, unfolding(spec::specs::Kinds::second_map))]
fn second_map(t: TypeLine) -> MapNumber
    ensures { result ≡ second_map t }
{
    match t {
        TypeLine::Lock(_, k) | TypeLine::Rwlock(_, k) => k,
        _ => MapNumber(0),
    }
}

// p of a ref type.
#[tactic(auto, unfolding(spec::specs::Kinds::ref_location))]
fn place_of(t: TypeLine) -> Location
    ensures { result ≡ ref_location t }
{
    match t {
        TypeLine::Ref(p, _) => p,
        _ => Location(0),
    }
}

// What a map has at the location.
#[tactic(auto, unfolding(crate::specs::Transfers::cell_in))]
pub fn cell_in(work: &[u32], column: Column, m: MapNumber) -> u32
    ensures { result ≡ cell_in work.now column m }
{
    map_cell(work, m, index(column.location.0))
}

// The type of step k.
#[tactic(auto, unfolding(crate::specs::Transfers::type_line_in))]
fn type_in(work: &[u32], k: usize) -> TypeLine
    requires { k < 512 }
    ensures { result ≡ type_line_in work.now k }
{
    type_at(work, TypeNumber(at(work, ROW_TYPES + k)))
}

// What the maps of the type of step k have at the location.
#[tactic(auto, unfolding(crate::specs::Transfers::first_in))]
fn first_in(work: &[u32], column: Column, k: usize) -> u32
    requires { k < 512 }
    ensures { result ≡ first_in work.now column k }
{
    cell_in(work, column, first_map(type_in(work, k)))
}

#[tactic(auto, unfolding(crate::specs::Transfers::second_in))]
fn second_in(work: &[u32], column: Column, k: usize) -> u32
    requires { k < 512 }
    ensures { result ≡ second_in work.now column k }
{
    cell_in(work, column, second_map(type_in(work, k)))
}

// What the new read-write lock of step k takes, w, and what it lends to as many readers as it has places.
#[tactic(auto, unfolding(crate::specs::Transfers::lending_in))]
fn lending_in(work: &[u32], column: Column, k: usize) -> Effect
    requires { k < 256 }
    ensures { result ≡ lending_in work.now column k }
{
    let places = u64::from(at(work, VALUES + k));
    let lent = places * u64::from(first_in(work, column, k));
    lending(lent, second_in(work, column, k))
}

// The map that the body of step k starts with, at the location.
#[tactic(auto, unfolding(crate::specs::Transfers::start_number_in))]
fn start_in(work: &[u32], column: Column, k: usize) -> u32
    requires { k < 512 }
    ensures { result ≡ start_number_in work.now column k }
{
    cell_in(work, column, MapNumber(at(work, STARTS + k)))
}

// What procedure f starts with and what it leaves, at the location.
#[tactic(auto, unfolding(crate::specs::Transfers::before_in))]
pub fn before_in(work: &[u32], column: Column, f: usize) -> u32
    requires { f < 4294967296 }
    ensures { result ≡ before_in work.now column f }
{
    cell_in(work, column, MapNumber(at(work, SIG_BEFORES + f)))
}

#[tactic(auto, unfolding(crate::specs::Transfers::after_in))]
pub fn after_in(work: &[u32], column: Column, f: usize) -> u32
    requires { f < 4294967296 }
    ensures { result ≡ after_in work.now column f }
{
    cell_in(work, column, MapNumber(at(work, SIG_AFTERS + f)))
}

// What the call of step k wants and what it leaves: the numbers of its procedure, each with what is kept back.
#[tactic(auto, unfolding(crate::specs::Transfers::calling_in))]
fn calling_in(work: &[u32], column: Column, k: usize) -> UnaryTransfer
    requires { k < 256 }
    ensures { result ≡ calling_in work.now column k }
{
    let f = index(at(work, VALUES + k));
    let kept = u64::from(start_in(work, column, k));
    let wanted = u64::from(before_in(work, column, f)) + kept;
    let left = u64::from(after_in(work, column, f)) + kept;
    UnaryTransfer::Call(wanted, left)
}

// What access through the ref type of step k needs at the location: d if it is the ref's own, else nothing.
#[tactic(auto, unfolding(crate::specs::Transfers::access_in, fill_theory::specs::FlowOf::asks))]
fn access_in(work: &[u32], column: Column, k: usize, d: u32) -> u32
    requires { k < 512 }
    ensures { result ≡ access_in work.now column k d }
{
    let p = place_of(type_in(work, k));
    if p == column.location { d } else { 0 }
}

// The transfer function of step k, whose word has the rule r. A first part stands just behind its step.
#[tactic(auto, unfolding(crate::proofs::Row::row))]
fn transfer_of(r: Rule, work: &[u32], column: Column, k: usize) -> Transfer
    requires { k < 256 }
    ensures { result ≡ transfer_of (word_by r) work.now column k }
{
    let part = k + 1;
    match r {
        Rule::VAR | Rule::INT | Rule::NEWT | Rule::NEWSEM => Transfer::Leaf(UNCHANGED),
        Rule::NEWL => Transfer::Leaf(taking(second_in(work, column, k))),
        Rule::NEWRWLOCK => Transfer::Leaf(lending_in(work, column, k)),
        Rule::WHILE => Transfer::Unary(UnaryTransfer::Loop),
        Rule::REF => Transfer::Unary(UnaryTransfer::After(UNCHANGED)),
        Rule::READ => {
            let access = access_in(work, column, part, 1);
            Transfer::Unary(UnaryTransfer::After(needing(access)))
        }
        Rule::JOIN | Rule::LCK | Rule::WAIT | Rule::RDLOCK => {
            Transfer::Unary(UnaryTransfer::After(giving(first_in(work, column, part))))
        }
        Rule::WRLOCK => {
            Transfer::Unary(UnaryTransfer::After(giving(second_in(work, column, part))))
        }
        Rule::POST | Rule::RDUNLOCK => {
            Transfer::Unary(UnaryTransfer::After(taking(first_in(work, column, part))))
        }
        Rule::ULCK | Rule::WRUNLOCK => {
            Transfer::Unary(UnaryTransfer::After(taking(second_in(work, column, part))))
        }
        Rule::CALL => Transfer::Unary(calling_in(work, column, k)),
        Rule::LET => Transfer::Binary(BinaryTransfer::InTurn(UNCHANGED)),
        Rule::WRITE => {
            let access = access_in(work, column, part, column.denominator);
            Transfer::Binary(BinaryTransfer::InTurn(needing(access)))
        }
        Rule::IF => Transfer::Binary(BinaryTransfer::Branch),
        Rule::SPAWN => {
            let start = start_in(work, column, k);
            Transfer::Binary(BinaryTransfer::Fork(start, first_in(work, column, part)))
        }
    }
}

// The transfer function of step k.
#[tactic(auto, unfolding(crate::specs::Transfers::transfer_in, workspace::specs::Layout::word_of))]
pub fn transfer_in(work: &[u32], column: Column, k: usize) -> Transfer
    requires { k < 256 }
    ensures { result ≡ transfer_in work.now column k }
{
    transfer_of(rule_of(at(work, WORDS + k)), work, column, k)
}
