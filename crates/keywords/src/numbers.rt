// What the word of a step says of its number v: what the step does with it, and its range.
#![tactic(auto, unfolding(spec::specs::Words::role, spec::specs::Words::least_value, spec::specs::Words::largest_value))]

ghost use Rattle.std.specs.Prelude.{◌≡◌};
ghost use Rattle.spec.specs.Words.{role, least_value, largest_value};
ghost use Rattle.spec.specs.declared.Word.TheVariants.{Leaf, Unary, Binary};
ghost use Rattle.keywords.specs.Numbers.{numbered as numbered_by, number_of};

use crate::calls;
use spec::{BinaryWord, LeafWord, Role, UnaryWord, Word};

// What a step does with its number, and the smallest and the largest that it may be.
#[derive(Clone, Copy)]
struct Number {
    role: Role,
    least: u32,
    largest: u32,
}

// The largest number that a call may name.
const CALL_LIMIT: u32 = 15;

fn numbered(role: Role, least: u32, largest: u32) -> Number
    ensures { result ≡ numbered_by role least largest }
{
    Number {
        role,
        least,
        largest,
    }
}

fn leaf_number(w: LeafWord) -> Number
    ensures { result ≡ number_of (Leaf w) }
{
    match w {
        LeafWord::Var => numbered(Role::Uses, 0, 255),
        LeafWord::Int => numbered(Role::Neither, 0, 65535),
        LeafWord::Newtid => numbered(Role::Neither, 0, 0),
        LeafWord::Newlock => numbered(Role::Neither, 0, 0),
        LeafWord::Newsem => numbered(Role::Neither, 0, 0),
        LeafWord::Newrwlock => numbered(Role::Neither, 1, 64),
    }
}

fn unary_number(w: UnaryWord) -> Number
    ensures { result ≡ number_of (Unary w) }
{
    if calls(w) {
        numbered(Role::Calls, 0, CALL_LIMIT)
    } else {
        numbered(Role::Neither, 0, 0)
    }
}

fn binary_number(w: BinaryWord) -> Number
    ensures { result ≡ number_of (Binary w) }
{
    match w {
        BinaryWord::Let => numbered(Role::Binds, 0, 255),
        BinaryWord::If => numbered(Role::Neither, 0, 0),
        BinaryWord::Spawn => numbered(Role::Neither, 0, 0),
        BinaryWord::Write => numbered(Role::Neither, 0, 0),
    }
}

fn number_of(w: Word) -> Number
    ensures { result ≡ number_of w }
{
    match w {
        Word::Leaf(l) => leaf_number(l),
        Word::Unary(u) => unary_number(u),
        Word::Binary(b) => binary_number(b),
    }
}

// What a step with this word does with its number v.
pub fn role_of(w: Word) -> Role
    ensures { result ≡ role w }
{
    number_of(w).role
}

// The smallest v that a step with this word may have.
pub fn least_of(w: Word) -> u32
    ensures { result ≡ least_value w }
{
    number_of(w).least
}

// The largest v that a step with this word may have.
pub fn limit_of(w: Word) -> u32
    ensures { result ≡ largest_value w }
{
    number_of(w).largest
}
