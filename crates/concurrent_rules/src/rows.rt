// The conditions of a step that makes a thread identifier, a thread, a lock, a semaphore or a read-write lock: the rules of
// Figure 5, in the printed order, and behind them those of section 3.1.4 and of document 02, request (xi).
#![tactic(auto, unfolding(conditions::specs::Outcome::first_false_from, spec::specs::StepContexts::judge, spec::specs::Kinds::is, spec::specs::Kinds::same_kind, spec::specs::Kinds::first_map, spec::specs::Kinds::second_map))]

ghost use Rattle.std.specs.Prelude.{◌≡◌};
ghost use Rattle.conditions.specs.Outcome.{first_false_from};
ghost use Rattle.spec.specs.declared.Word.TheVariants.{Leaf, Binary};
ghost use Rattle.spec.specs.declared.LeafWord.TheVariants.{Newtid, Newlock, Newsem, Newrwlock};
ghost use Rattle.spec.specs.declared.BinaryWord.TheVariants.{Spawn};
ghost use Rattle.rule_rows.specs.Table.{row_in};

use conditions::{Relation, flow, type_false};
use rule_rows::StepView;
use spec::{Refusal, TypeLine};
use workspace::type_at;

// NEWT: 1 a tid type; 2 post = pre.
pub fn check_newt(work: &[u32], s: StepView) -> Result<(), Refusal>
    ensures { result ≡ first_false_from s.line 1 (row_in (Leaf Newtid) work.now s) }
{
    let TypeLine::Tid(_) = type_at(work, s.typed) else {
        return type_false(s.line, 1);
    };
    s.equal(work, 2, s.post, s.pre)
}

// SPAWN: 1 type int; 2 e1 a tid; 3 post of e2 ≥ K; 4 post + s = post of e1.
pub fn check_spawn(work: &[u32], s: StepView) -> Result<(), Refusal>
    ensures { result ≡ first_false_from s.line 1 (row_in (Binary Spawn) work.now s) }
{
    s.is_int(work, 1)?;
    let TypeLine::Tid(load) = type_at(work, s.type1) else {
        return type_false(s.line, 2);
    };
    s.at_least(work, 3, s.post2, load)?;
    s.sum(work, 4, s.post, s.start, s.post1)
}

// NEWL: 1 a lock type; 2 post + out = pre.
pub fn check_newl(work: &[u32], s: StepView) -> Result<(), Refusal>
    ensures { result ≡ first_false_from s.line 1 (row_in (Leaf Newlock) work.now s) }
{
    let TypeLine::Lock(_, out) = type_at(work, s.typed) else {
        return type_false(s.line, 1);
    };
    s.sum(work, 2, s.post, out, s.pre)
}

// NEWSEM: 1 a sem type; 2 post = pre.
pub fn check_newsem(work: &[u32], s: StepView) -> Result<(), Refusal>
    ensures { result ≡ first_false_from s.line 1 (row_in (Leaf Newsem) work.now s) }
{
    let TypeLine::Sem(_) = type_at(work, s.typed) else {
        return type_false(s.line, 1);
    };
    s.equal(work, 2, s.post, s.pre)
}

// NEWRWLOCK: 1 a rwlock type; 2 N × r ≤ w; 3 post + w = pre.
pub fn check_newrwlock(work: &[u32], s: StepView) -> Result<(), Refusal>
    ensures { result ≡ first_false_from s.line 1 (row_in (Leaf Newrwlock) work.now s) }
{
    let TypeLine::Rwlock(read, write) = type_at(work, s.typed) else {
        return type_false(s.line, 1);
    };
    let covers = Relation::Covers(write, s.value, read);
    flow(s.line, 2, work, s.locations, covers)?;
    s.sum(work, 3, s.post, write, s.pre)
}
