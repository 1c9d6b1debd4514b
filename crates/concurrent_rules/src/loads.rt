// Words with a part whose type has a load: the step takes it, or gives it back. Each takes the type of its part apart by `let .. else`,
// whose else is the refusal, so that a row of Figure 5 is found in one place.
#![tactic(auto, unfolding(conditions::specs::Outcome::first_false_from, spec::specs::StepContexts::judge, spec::specs::Kinds::is, spec::specs::Kinds::same_kind, spec::specs::Kinds::first_map, spec::specs::Kinds::second_map))]

ghost use Rattle.std.specs.Prelude.{◌≡◌};
ghost use Rattle.spec.specs.StepContexts.{judge};
ghost use Rattle.spec.specs.declared.Word.TheVariants.{Unary};
ghost use Rattle.spec.specs.declared.UnaryWord.TheVariants.{Join, Lock, Unlock, Post, Wait, Rdlock, Rdunlock, Wrlock, Wrunlock};
ghost use Rattle.conditions.specs.declared.Relation.TheVariants.{Sum};
ghost use Rattle.conditions.specs.Outcome.{first_false_from};
ghost use Rattle.rule_rows.specs.Table.{flows, row_in};

use conditions::type_false;
use rule_rows::StepView;
use spec::{MapNumber, Refusal, TypeLine};
use workspace::type_at;

// The last condition of a word that takes: post = post of part + load.
fn takes(work: &[u32], s: StepView, load: MapNumber) -> Result<(), Refusal>
    ensures { result ≡ judge s.line 3 (flows work.now s (Sum s.post1 load s.post)) }
{
    s.sum(work, 3, s.post1, load, s.post)
}

// The last condition of a word that gives back: post + load = post of part.
fn gives(work: &[u32], s: StepView, load: MapNumber) -> Result<(), Refusal>
    ensures { result ≡ judge s.line 3 (flows work.now s (Sum s.post load s.post1)) }
{
    s.sum(work, 3, s.post, load, s.post1)
}

// JOIN: 1 type int; 2 part a tid; 3 post = post of part + K.
pub fn check_join(work: &[u32], s: StepView) -> Result<(), Refusal>
    ensures { result ≡ first_false_from s.line 1 (row_in (Unary Join) work.now s) }
{
    s.is_int(work, 1)?;
    let TypeLine::Tid(load) = type_at(work, s.type1) else {
        return type_false(s.line, 2);
    };
    takes(work, s, load)
}

// LCK: 1 type int; 2 part a lock; 3 post = post of part + in.
pub fn check_lock(work: &[u32], s: StepView) -> Result<(), Refusal>
    ensures { result ≡ first_false_from s.line 1 (row_in (Unary Lock) work.now s) }
{
    s.is_int(work, 1)?;
    let TypeLine::Lock(load, _) = type_at(work, s.type1) else {
        return type_false(s.line, 2);
    };
    takes(work, s, load)
}

// ULCK: 1 type int; 2 part a lock; 3 post + out = post of part.
pub fn check_unlock(work: &[u32], s: StepView) -> Result<(), Refusal>
    ensures { result ≡ first_false_from s.line 1 (row_in (Unary Unlock) work.now s) }
{
    s.is_int(work, 1)?;
    let TypeLine::Lock(_, load) = type_at(work, s.type1) else {
        return type_false(s.line, 2);
    };
    gives(work, s, load)
}

// POST: 1 type int; 2 part a sem; 3 post + K = post of part.
pub fn check_post(work: &[u32], s: StepView) -> Result<(), Refusal>
    ensures { result ≡ first_false_from s.line 1 (row_in (Unary Post) work.now s) }
{
    s.is_int(work, 1)?;
    let TypeLine::Sem(load) = type_at(work, s.type1) else {
        return type_false(s.line, 2);
    };
    gives(work, s, load)
}

// WAIT: 1 type int; 2 part a sem; 3 post = post of part + K.
pub fn check_wait(work: &[u32], s: StepView) -> Result<(), Refusal>
    ensures { result ≡ first_false_from s.line 1 (row_in (Unary Wait) work.now s) }
{
    s.is_int(work, 1)?;
    let TypeLine::Sem(load) = type_at(work, s.type1) else {
        return type_false(s.line, 2);
    };
    takes(work, s, load)
}

// RDLOCK: 1 type int; 2 part a rwlock; 3 post = post of part + r.
pub fn check_rdlock(work: &[u32], s: StepView) -> Result<(), Refusal>
    ensures { result ≡ first_false_from s.line 1 (row_in (Unary Rdlock) work.now s) }
{
    s.is_int(work, 1)?;
    let TypeLine::Rwlock(load, _) = type_at(work, s.type1) else {
        return type_false(s.line, 2);
    };
    takes(work, s, load)
}

// RDUNLOCK: 1 type int; 2 part a rwlock; 3 post + r = post of part.
pub fn check_rdunlock(work: &[u32], s: StepView) -> Result<(), Refusal>
    ensures { result ≡ first_false_from s.line 1 (row_in (Unary Rdunlock) work.now s) }
{
    s.is_int(work, 1)?;
    let TypeLine::Rwlock(load, _) = type_at(work, s.type1) else {
        return type_false(s.line, 2);
    };
    gives(work, s, load)
}

// WRLOCK: 1 type int; 2 part a rwlock; 3 post = post of part + w.
pub fn check_wrlock(work: &[u32], s: StepView) -> Result<(), Refusal>
    ensures { result ≡ first_false_from s.line 1 (row_in (Unary Wrlock) work.now s) }
{
    s.is_int(work, 1)?;
    let TypeLine::Rwlock(_, load) = type_at(work, s.type1) else {
        return type_false(s.line, 2);
    };
    takes(work, s, load)
}

// WRUNLOCK: 1 type int; 2 part a rwlock; 3 post + w = post of part.
pub fn check_wrunlock(work: &[u32], s: StepView) -> Result<(), Refusal>
    ensures { result ≡ first_false_from s.line 1 (row_in (Unary Wrunlock) work.now s) }
{
    s.is_int(work, 1)?;
    let TypeLine::Rwlock(_, load) = type_at(work, s.type1) else {
        return type_false(s.line, 2);
    };
    gives(work, s, load)
}
