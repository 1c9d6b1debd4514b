// The conditions of a step that its thread does alone: the rules of Figure 5, in the printed order, and behind them that of
// calls, document 02, request (xiv).
#![tactic(auto, unfolding(conditions::specs::Outcome::first_false_from, spec::specs::StepContexts::judge))]

ghost use Rattle.std.specs.Prelude.{◌≡◌};
ghost use Rattle.conditions.specs.Outcome.{first_false_from};
ghost use Rattle.spec.specs.declared.Word.TheVariants.{Leaf, Unary, Binary};
ghost use Rattle.spec.specs.declared.LeafWord.TheVariants.{Var, Int};
ghost use Rattle.spec.specs.declared.UnaryWord.TheVariants.{While, Ref, Read, Call};
ghost use Rattle.spec.specs.declared.BinaryWord.TheVariants.{Let, If, Write};
ghost use Rattle.rule_rows.specs.Table.{row_in};

use conditions::{holds_at_least, may_show, type_false};
use rule_rows::StepView;
use spec::{Refusal, TypeLine};
use workspace::type_at;

// VAR: 1 type is that of its let's e1, or for a lock a looser one; 2 post = pre.
pub fn check_var(work: &[u32], s: StepView) -> Result<(), Refusal>
    ensures { result ≡ first_false_from s.line 1 (row_in (Leaf Var) work.now s) }
{
    if !may_show(work, s.locations, s.typed, s.bound) {
        return type_false(s.line, 1);
    }
    s.equal(work, 2, s.post, s.pre)
}

// INT: 1 type int; 2 post = pre.
pub fn check_int(work: &[u32], s: StepView) -> Result<(), Refusal>
    ensures { result ≡ first_false_from s.line 1 (row_in (Leaf Int) work.now s) }
{
    s.is_int(work, 1)?;
    s.equal(work, 2, s.post, s.pre)
}

// LET: 1 type of e2; 2 post = post of e2.
pub fn check_let(work: &[u32], s: StepView) -> Result<(), Refusal>
    ensures { result ≡ first_false_from s.line 1 (row_in (Binary Let) work.now s) }
{
    s.agree(work, 1, s.typed, s.type2)?;
    s.equal(work, 2, s.post, s.post2)
}

// IF: 1 type of e1; 2 type of e2; 3 post of e1 ≥ post; 4 post of e2 ≥ post.
pub fn check_if(work: &[u32], s: StepView) -> Result<(), Refusal>
    ensures { result ≡ first_false_from s.line 1 (row_in (Binary If) work.now s) }
{
    s.agree(work, 1, s.typed, s.type1)?;
    s.agree(work, 2, s.typed, s.type2)?;
    s.at_least(work, 3, s.post1, s.post)?;
    s.at_least(work, 4, s.post2, s.post)
}

// WHILE: 1 type int; 2 pre ≥ post; 3 post of part ≥ post.
pub fn check_while(work: &[u32], s: StepView) -> Result<(), Refusal>
    ensures { result ≡ first_false_from s.line 1 (row_in (Unary While) work.now s) }
{
    s.is_int(work, 1)?;
    s.at_least(work, 2, s.pre, s.post)?;
    s.at_least(work, 3, s.post1, s.post)
}

// REF: 1 a ref type whose c is the part's type; 2 post = post of part.
#[tactic(auto, unfolding(conditions::specs::Outcome::first_false_from, spec::specs::StepContexts::judge, spec::specs::Conditions::contains, spec::specs::Kinds::is, spec::specs::Kinds::same_kind, spec::specs::Kinds::content))]
pub fn check_ref(work: &[u32], s: StepView) -> Result<(), Refusal>
    ensures { result ≡ first_false_from s.line 1 (row_in (Unary Ref) work.now s) }
{
    let TypeLine::Ref(_, content) = type_at(work, s.typed) else {
        return type_false(s.line, 1);
    };
    s.agree(work, 1, content, s.type1)?;
    s.equal(work, 2, s.post, s.post1)
}

// WRITE: 1 type int; 2 e1 a ref; 3 type of e2 is c; 4 post = post of e2; 5 post at p ≥ D.
#[tactic(auto, unfolding(conditions::specs::Outcome::first_false_from, spec::specs::StepContexts::judge, spec::specs::Conditions::contains, spec::specs::Kinds::is, spec::specs::Kinds::same_kind, spec::specs::Kinds::content, spec::specs::Kinds::ref_location))]
pub fn check_write(work: &[u32], s: StepView) -> Result<(), Refusal>
    ensures { result ≡ first_false_from s.line 1 (row_in (Binary Write) work.now s) }
{
    s.is_int(work, 1)?;
    let TypeLine::Ref(p, content) = type_at(work, s.type1) else {
        return type_false(s.line, 2);
    };
    s.agree(work, 3, content, s.type2)?;
    s.equal(work, 4, s.post, s.post2)?;
    holds_at_least(s.line, 5, work, s.post, p, s.denominator)
}

// READ: 1 part a ref; 2 type is c; 3 post = post of part; 4 post at p > 0.
#[tactic(auto, unfolding(conditions::specs::Outcome::first_false_from, spec::specs::StepContexts::judge, spec::specs::Conditions::contains, spec::specs::Kinds::is, spec::specs::Kinds::same_kind, spec::specs::Kinds::content, spec::specs::Kinds::ref_location))]
pub fn check_read(work: &[u32], s: StepView) -> Result<(), Refusal>
    ensures { result ≡ first_false_from s.line 1 (row_in (Unary Read) work.now s) }
{
    let TypeLine::Ref(p, content) = type_at(work, s.type1) else {
        return type_false(s.line, 1);
    };
    s.agree(work, 2, content, s.typed)?;
    s.equal(work, 3, s.post, s.post1)?;
    holds_at_least(s.line, 4, work, s.post, p, 1)
}

// CALL: 1 type is result; 2 type of part is argument; 3 post of part = before + s; 4 post = after + s.
pub fn check_call(work: &[u32], s: StepView) -> Result<(), Refusal>
    ensures { result ≡ first_false_from s.line 1 (row_in (Unary Call) work.now s) }
{
    let g = s.signature;
    s.agree(work, 1, s.typed, g.result)?;
    s.agree(work, 2, s.type1, g.argument)?;
    s.sum(work, 3, g.before, s.start, s.post1)?;
    s.sum(work, 4, g.after, s.start, s.post)
}
