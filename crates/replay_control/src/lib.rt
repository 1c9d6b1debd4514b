// The control of a thread on numbers: from where a step leaves it to its next word. A step of the program has one continuation, what
// follows once it is a value, so that no frames are stored.
#![tactic(auto)]

mod continuations;
pub mod layout;

ghost use Rattle.std.specs.Prelude.{◌≡◌, ◌<◌, ◌-◌, set};
ghost use Rattle.replay_control.specs.Shapes.{shape_at};
ghost use Rattle.replay_control.specs.Modes.{mode_number, mode_of};
ghost use Rattle.replay_control.specs.Control.{variable as variable_of, kept, behind as behind_of, second as second_of, first_of, root_of, entering as entering_at, returning as returning_to, stopped_at, ready_at, unrolled_at, done_with, entered_by, entered, half_written, left, returned, returned_space, advanced, advanced_space, found};

pub use continuations::link;
use layout::{
    CONTINUATIONS, ENVIRONMENTS, FINISH, KEPT_VALUES, LEAVE, OPEN_CALLS, PROCEDURES, ROW,
    SECOND_PART,
};
use workspace::{Shape, at, index, rule_of, shape_of};

// Where a thread is: on its way to its next word, at it, or at its end.
#[derive(Clone, Copy, PartialEq, Eq)]
pub enum Mode {
    // Step `at` is evaluated.
    Enter,
    // `value` goes to the continuation `at`.
    Return,
    // At the word of step `at`, which reduces with its parts as they are.
    Stopped,
    // At the word of step `at`, whose last part gave `value`.
    Ready,
    // At the `if` that the `while` of step `at` became.
    Unrolled,
    // The thread has finished with `value`.
    Done,
}

impl Mode {
    // The number that stands for it in the lent space.
    pub fn number(self) -> u32
        ensures { result ≡ mode_number self }
    {
        match self {
            Mode::Enter => 0,
            Mode::Return => 1,
            Mode::Stopped => 2,
            Mode::Ready => 3,
            Mode::Unrolled => 4,
            Mode::Done => 5,
        }
    }

    // The mode of a number; of one that stands for none, the last.
    #[tactic(auto, unfolding(crate::specs::Modes::mode_of))]
    pub fn of(number: u32) -> Mode
        ensures { result ≡ mode_of number }
    {
        match number {
            0 => Mode::Enter,
            1 => Mode::Return,
            2 => Mode::Stopped,
            3 => Mode::Ready,
            4 => Mode::Unrolled,
            _ => Mode::Done,
        }
    }
}

// Where a thread is, while its next word is looked for and once it is found; its variables stand in that row.
#[derive(Clone, Copy, PartialEq, Eq)]
pub struct ControlPoint {
    pub mode: Mode,
    pub at: u32,
    pub value: u32,
    pub row: u32,
}

// The fuel of that loop, more than the steps of a program can take.
const FUEL: u32 = 2048;

impl ControlPoint {
    // To a step k.
    pub fn entering(row: u32, k: u32) -> ControlPoint
        ensures { result ≡ entering_at row k }
    {
        ControlPoint {
            mode: Mode::Enter,
            at: k,
            value: 0,
            row,
        }
    }

    // With a value to a continuation c.
    pub fn returning(row: u32, c: u32, value: u32) -> ControlPoint
        ensures { result ≡ returning_to row c value }
    {
        ControlPoint {
            mode: Mode::Return,
            at: c,
            value,
            row,
        }
    }

    // At the word of a step k.
    pub fn stopped_at(row: u32, k: u32) -> ControlPoint
        ensures { result ≡ stopped_at row k }
    {
        ControlPoint {
            mode: Mode::Stopped,
            at: k,
            value: 0,
            row,
        }
    }

    // At the word of a step k, whose last part gave a value.
    pub fn ready_at(row: u32, k: u32, value: u32) -> ControlPoint
        ensures { result ≡ ready_at row k value }
    {
        ControlPoint {
            mode: Mode::Ready,
            at: k,
            value,
            row,
        }
    }

    // At the `if` that the `while` of a step k became.
    pub fn unrolled_at(row: u32, k: u32) -> ControlPoint
        ensures { result ≡ unrolled_at row k }
    {
        ControlPoint {
            mode: Mode::Unrolled,
            at: k,
            value: 0,
            row,
        }
    }

    // Finished with a value.
    pub fn done_with(row: u32, value: u32) -> ControlPoint
        ensures { result ≡ done_with row value }
    {
        ControlPoint {
            mode: Mode::Done,
            at: 0,
            value,
            row,
        }
    }
}

// A number of the space is set; past its end there is none.
pub fn put(space: &mut [u32], i: usize, v: u32)
    ensures { space.new ≡ set space.old i v }
{
    if i < space.len() {
        space[i] = v;
    }
}

// The value of a variable in a row.
#[tactic(auto, unfolding(crate::specs::Control::variable))]
pub fn variable(space: &[u32], row: u32, x: u32) -> u32
    ensures { result ≡ variable_of space.now row x }
{
    at(space, ENVIRONMENTS + ROW * index(row) + index(x))
}

// The shape of step k.
#[tactic(auto, unfolding(crate::specs::Shapes::shape_at))]
pub fn shape_at(program: &[u32], k: u32) -> Shape
    ensures { result ≡ shape_at program.now k }
{
    shape_of(rule_of(at(program, workspace::WORDS + index(k))))
}

// The first part of a step stands behind it.
#[tactic(auto, unfolding(crate::specs::Control::behind))]
pub fn behind(k: u32) -> u32
    ensures { result ≡ behind_of k }
{
    if k < FINISH { k + 1 } else { k }
}

// The second part of a step stands at the end of the first.
#[tactic(auto, unfolding(crate::specs::Control::second))]
pub fn second(program: &[u32], k: u32) -> u32
    ensures { result ≡ second_of program.now k }
{
    at(program, workspace::ENDS + 1 + index(k))
}

// The first step of the body of procedure f; behind the procedures, of the root.
#[tactic(auto, unfolding(crate::specs::Control::first_of))]
pub fn first(program: &[u32], f: u32) -> u32
    ensures { result ≡ first_of program.now f }
{
    at(program, workspace::PROC_FIRSTS + index(f))
}

// The first step of the root.
#[tactic(auto, unfolding(crate::specs::Control::root_of))]
pub fn root(program: &[u32]) -> u32
    ensures { result ≡ root_of program.now }
{
    first(program, at(program, PROCEDURES))
}

// From a step k of that shape, with continuation c and, of a variable, its value x.
#[tactic(auto, unfolding(crate::specs::Control::entered_by))]
fn entered_by(s: Shape, row: u32, k: u32, c: u32, x: u32) -> ControlPoint
    ensures { result ≡ entered_by s row k c x }
{
    match s {
        Shape::Variable => ControlPoint::returning(row, c, x),
        Shape::Constant => ControlPoint::returning(row, c, 0),
        Shape::NoPart | Shape::While | Shape::If => ControlPoint::stopped_at(row, k),
        Shape::OnePart | Shape::Call | Shape::Let | Shape::Spawn | Shape::Write => {
            ControlPoint::entering(row, behind(k))
        }
    }
}

// One advance from a step.
#[tactic(auto, unfolding(crate::specs::Control::entered, crate::specs::Control::continuation))]
fn enter(program: &[u32], space: &[u32], row: u32, k: u32) -> ControlPoint
    ensures { result ≡ entered program.now space.now row k }
{
    let s = shape_at(program, k);
    let c = at(program, CONTINUATIONS + index(k));
    let x = at(program, workspace::VALUES + index(k));
    entered_by(s, row, k, c, variable(space, row, x))
}

// Whether a continuation is the first part of a `write`.
#[tactic(auto, unfolding(crate::specs::Control::half_written, crate::specs::Shapes::is_write))]
fn half_written(program: &[u32], c: u32) -> bool
    ensures { result ≡ half_written program.now c }
{
    c < SECOND_PART && shape_at(program, c) == Shape::Write
}

// The open call of that row ends with the value v, and the call's step is this value, in the row before.
#[tactic(auto, unfolding(crate::specs::Control::left, crate::specs::Control::called_from, crate::specs::Control::continuation))]
fn leave(program: &[u32], space: &[u32], row: u32, v: u32) -> ControlPoint
    ensures { result ≡ left program.now space.now row v }
{
    let k = at(space, OPEN_CALLS + index(row));
    let c = at(program, CONTINUATIONS + index(k));
    ControlPoint::returning(row.saturating_sub(1), c, v)
}

// One advance from a value: to the word around it, to the second part of a `write`, or out of an open call.
#[tactic(auto, unfolding(crate::specs::Control::returned))]
fn return_to(program: &[u32], space: &[u32], row: u32, c: u32, v: u32) -> ControlPoint
    ensures { result ≡ returned program.now space.now row c v }
{
    if half_written(program, c) {
        return ControlPoint::entering(row, second(program, c));
    }
    if c < SECOND_PART {
        return ControlPoint::ready_at(row, c, v);
    }
    if c < FINISH {
        return ControlPoint::ready_at(row, c - SECOND_PART, v);
    }
    if c < LEAVE {
        return ControlPoint::done_with(row, v);
    }
    leave(program, space, row, v)
}

// The value that the first part of the `write` of step k gave.
#[tactic(auto, unfolding(crate::specs::Control::kept))]
pub fn kept_value(space: &[u32], row: u32, k: u32) -> u32
    ensures { result ≡ kept space.now row k }
{
    at(space, KEPT_VALUES + ROW * index(row) + index(k))
}

// It is kept until the second part has a value.
#[tactic(auto, unfolding(crate::specs::Control::returned_space))]
fn keep(program: &[u32], space: &mut [u32], row: u32, c: u32, v: u32)
    ensures { space.new ≡ returned_space program.now space.old row c v }
{
    if half_written(program, c) {
        put(space, KEPT_VALUES + ROW * index(row) + index(c), v);
    }
}

// One advance.
#[tactic(auto, unfolding(crate::specs::Control::advanced, crate::specs::Control::advanced_space))]
fn advance(program: &[u32], space: &mut [u32], f: ControlPoint) -> ControlPoint
    ensures { (result ≡ advanced program.now space.old f) × (space.new ≡ advanced_space program.now space.old f) }
{
    if f.mode == Mode::Enter {
        return enter(program, space, f.row, f.at);
    }
    let next = return_to(program, space, f.row, f.at, f.value);
    keep(program, space, f.row, f.at, f.value);
    next
}

// The next word of a thread: advances until it is found.
#[tactic(auto, using(crate::proofs::Advances::found_stop, crate::proofs::Advances::found_more, crate::proofs::Advances::found_end))]
pub fn next_redex(program: &[u32], space: &mut [u32], f: ControlPoint) -> ControlPoint
    ensures { found 2048 program.now space.old f ≡ (result, space.new) }
{
    let mut g = f;
    for _ in 0..FUEL {
        if !matches!(g.mode, Mode::Enter | Mode::Return) {
            return g;
        }
        g = advance(program, space, g);
    }
    g
}
