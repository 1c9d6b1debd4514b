// The step of a thread's next word, as far as it does not touch the records of threads.
ghost use Rattle.std.specs.Prelude.{◌≡◌, Ok, Some};
ghost use Rattle.replay_step.specs.Words.{given, branched, looped, bound, new_thing, subject as subject_of, operand as operand_of, effected, word_used, acted};
ghost use Rattle.replay_step.specs.declared.words.Act.TheVariants.{Go};

use crate::calls::call;
use crate::slots::{put_thing, thing_at};
use replay_control::{ControlPoint, Mode, behind, layout, put, second};
use replay_objects::{Slot, StepEffect, Thing, effect_of};
use workspace::{Shape, at, index, rule_of};

// The most things of a kind.
const LIMIT: u32 = 64;

// What a word comes to: its thread goes on from there; or a thread is spawned, or joined, with that identifier.
#[derive(Clone, Copy, PartialEq, Eq)]
pub enum Act {
    Go(ControlPoint),
    Spawn(u32),
    Join(u32),
}

// Why a step is not taken: the word cannot step; or the step is past a limit.
#[derive(Clone, Copy, PartialEq, Eq)]
pub enum Halt {
    Stuck,
    Past,
}

// The word at f becomes a value.
#[tactic(auto, unfolding(crate::specs::Words::given, replay_control::specs::Control::continuation))]
pub fn gives(program: &[u32], f: ControlPoint, v: u32) -> ControlPoint
    ensures { result ≡ given program.now f.row f.at v }
{
    let c = at(program, layout::CONTINUATIONS + index(f.at));
    ControlPoint::returning(f.row, c, v)
}

// The part of the `if` at f that is chosen, 0 taking e1.
#[tactic(auto, unfolding(crate::specs::Words::branched))]
fn branch(program: &[u32], f: ControlPoint, choice: u32) -> ControlPoint
    ensures { result ≡ branched program.now f.row f.at choice }
{
    let part = if choice == 0 {
        behind(f.at)
    } else {
        second(program, f.at)
    };
    ControlPoint::entering(f.row, part)
}

// A `while` becomes an `if`; the `if` becomes its part with the same `while` behind it, or 0; a part that gave its value becomes the
// `while`.
#[tactic(auto, unfolding(crate::specs::Words::looped))]
fn around(program: &[u32], f: ControlPoint, choice: u32) -> ControlPoint
    ensures { result ≡ looped program.now f choice }
{
    match f.mode {
        Mode::Stopped => ControlPoint::unrolled_at(f.row, f.at),
        Mode::Ready => ControlPoint::stopped_at(f.row, f.at),
        Mode::Enter | Mode::Return | Mode::Unrolled | Mode::Done => {
            if choice == 0 {
                ControlPoint::entering(f.row, behind(f.at))
            } else {
                gives(program, f, 0)
            }
        }
    }
}

// A `let` binds its variable and becomes its e2.
#[tactic(auto, unfolding(crate::specs::Words::bound))]
fn bind(program: &[u32], space: &mut [u32], f: ControlPoint) -> ControlPoint
    ensures { bound program.now space.old f ≡ (Ok (Go result), space.new) }
{
    let x = at(program, workspace::VALUES + index(f.at));
    let variable = layout::ENVIRONMENTS + layout::ROW * index(f.row) + index(x);
    put(space, variable, f.value);
    ControlPoint::entering(f.row, second(program, f.at))
}

// The word at f becomes the name of a new thing, if there is room for one more of its kind.
#[tactic(auto, unfolding(crate::specs::Words::new_thing, crate::specs::Words::with_thing))]
fn make(program: &[u32], space: &mut [u32], f: ControlPoint, x: Thing) -> Result<Act, Halt>
    ensures { new_thing program.now space.old f.row f.at x ≡ (result, space.new) }
{
    let kind = index(Slot::of(x).kind);
    let count = at(space, layout::THING_COUNTS + kind);
    let next = at(space, layout::NEXT_VALUE);
    if LIMIT <= count || layout::VALUE_LIMIT <= next {
        return Err(Halt::Past);
    }
    put_thing(space, next, x);
    put(space, layout::THING_COUNTS + kind, count + 1);
    put(space, layout::NEXT_VALUE, next + 1);
    Ok(Act::Go(gives(program, f, next)))
}

// The value that names what the word is about: of a `write` its first part's, else its last part's.
#[tactic(auto, unfolding(crate::specs::Words::subject, replay_control::specs::Shapes::is_write))]
fn subject(program: &[u32], space: &[u32], f: ControlPoint) -> u32
    ensures { result ≡ subject_of program.now space.now f }
{
    if replay_control::shape_at(program, f.at) == Shape::Write {
        replay_control::kept_value(space, f.row, f.at)
    } else {
        f.value
    }
}

// The value that the word stores, or the number of a word without parts.
#[tactic(auto, unfolding(crate::specs::Words::operand))]
fn operand(program: &[u32], f: ControlPoint) -> u32
    ensures { result ≡ operand_of program.now f }
{
    if f.mode == Mode::Stopped {
        at(program, workspace::VALUES + index(f.at))
    } else {
        f.value
    }
}

// What is done about the value v by the word at f.
#[tactic(auto, unfolding(crate::specs::Words::effected))]
fn effect(
    program: &[u32],
    space: &mut [u32],
    f: ControlPoint,
    v: u32,
    u: StepEffect,
) -> Result<Act, Halt>
    ensures { effected program.now space.old f.row f.at v (Some u) ≡ (result, space.new) }
{
    match u {
        StepEffect::Returns(w) => Ok(Act::Go(gives(program, f, w))),
        StepEffect::Updates(x) => {
            put_thing(space, v, x);
            Ok(Act::Go(gives(program, f, 0)))
        }
        StepEffect::Makes(x) => make(program, space, f, x),
        StepEffect::Spawns => Ok(Act::Spawn(v)),
        StepEffect::Joins => Ok(Act::Join(v)),
    }
}

// A word that uses what a value names.
#[tactic(auto, unfolding(crate::specs::Words::word_used, crate::specs::Words::effected))]
fn use_word(program: &[u32], space: &mut [u32], f: ControlPoint) -> Result<Act, Halt>
    ensures { word_used program.now space.old f ≡ (result, space.new) }
{
    let r = rule_of(at(program, workspace::WORDS + index(f.at)));
    let v = subject(program, space, f);
    let x = thing_at(space, v);
    let u = effect_of(r, x, operand(program, f)).ok_or(Halt::Stuck)?;
    effect(program, space, f, v, u)
}

// The step of the word at that control point, with that choice.
#[tactic(auto, unfolding(crate::specs::Words::acted, crate::specs::Words::acted_by))]
pub fn reduce(program: &[u32], space: &mut [u32], f: ControlPoint, choice: u32) -> Result<Act, Halt>
    ensures { acted program.now space.old f choice ≡ (result, space.new) }
{
    match replay_control::shape_at(program, f.at) {
        Shape::Variable | Shape::Constant => Err(Halt::Stuck),
        Shape::NoPart | Shape::OnePart | Shape::Spawn | Shape::Write => {
            use_word(program, space, f)
        }
        Shape::While => Ok(Act::Go(around(program, f, choice))),
        Shape::Call => Ok(Act::Go(call(program, space, f))),
        Shape::Let => Ok(Act::Go(bind(program, space, f))),
        Shape::If => Ok(Act::Go(branch(program, f, choice))),
    }
}
