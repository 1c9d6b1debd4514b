// One step and what binds its variable: whether it binds a variable, uses one within its scope, or calls a procedure that is there.
ghost use Rattle.std.specs.Prelude.{◌≡◌, ◌<◌};
ghost use Rattle.program_scopes.specs.Judging.{judge_let, scope_from, scope_till, judge_var, judge_call, judge_of};

use keywords::role_of;
use spec::{Refusal, Role};
use std::ops::Range;
use workspace::{ENDS, LINES, PROC_FIRSTS, PROC_MARK, SIZE, VALUES, WORDS};

// A step judged: its variable is bound here, or a number is stored for it, what binds its variable if it is a `var`, else 0.
#[derive(Clone, Copy, PartialEq, Eq)]
pub(crate) enum Judged {
    Bind,
    Store(u32),
}

// A let at a line, whose variable is bound at b already, or unbound.
#[tactic(auto, unfolding(crate::specs::Judging::judge_let))]
fn judge_let(line: u32, b: Option<u32>) -> Result<Judged, Refusal>
    ensures { result ≡ judge_let line b }
{
    match b {
        Some(_) => Err(Refusal::Rebound(line)),
        None => Ok(Judged::Bind),
    }
}

// The scope of what is bound at b: of a let, its e2; of a procedure, its body, behind which the next one begins.
#[tactic(auto, unfolding(crate::specs::Judging::scope_from, crate::specs::Judging::scope_till))]
fn scope_of(work: &[u32; SIZE], b: u32) -> Range<usize>
    ensures { (result.start ≡ scope_from work.now b) × (result.end ≡ scope_till work.now b) }
{
    let (from, till) = if b < PROC_MARK {
        let k = workspace::index(b);
        (ENDS + (k + 1), ENDS + k)
    } else {
        let f = workspace::index(b - PROC_MARK);
        (PROC_FIRSTS + f, PROC_FIRSTS + (f + 1))
    };
    workspace::index(workspace::at(work, from))..workspace::index(workspace::at(work, till))
}

// A use at index k of the variable that is bound at b: it must stand within that scope.
#[tactic(auto, unfolding(crate::specs::Judging::judge_var, workspace::specs::Steps::step_line_at))]
fn judge_var(work: &[u32; SIZE], k: usize, b: Option<u32>) -> Result<Judged, Refusal>
    requires { k < 256 }
    ensures { result ≡ judge_var work.now k b }
{
    match b {
        Some(b) if scope_of(work, b).contains(&k) => Ok(Judged::Store(b)),
        _ => Err(Refusal::Unbound(work[LINES + k])),
    }
}

// A call at index k, in a sheet with so many procedures: its number must be one of them.
#[tactic(auto, unfolding(crate::specs::Judging::judge_call, workspace::specs::Steps::value_at, workspace::specs::Steps::step_line_at))]
fn judge_call(work: &[u32; SIZE], count: usize, k: usize) -> Result<Judged, Refusal>
    requires { k < 256 }
    ensures { result ≡ judge_call work.now count k }
{
    if workspace::index(work[VALUES + k]) < count {
        Ok(Judged::Store(0))
    } else {
        Err(Refusal::NoProcedure(work[LINES + k]))
    }
}

// The step at index k, whose number v is bound at b.
#[tactic(auto, unfolding(crate::specs::Judging::judge_of, crate::specs::Judging::judge_by, workspace::specs::Steps::word_at, workspace::specs::Steps::step_line_at))]
pub(crate) fn judge(
    work: &[u32; SIZE],
    count: usize,
    k: usize,
    b: Option<u32>,
) -> Result<Judged, Refusal>
    requires { k < 256 }
    ensures { result ≡ judge_of work.now count k b }
{
    match role_of(workspace::word_of(work[WORDS + k])) {
        Role::Binds => judge_let(work[LINES + k], b),
        Role::Uses => judge_var(work, k, b),
        Role::Calls => judge_call(work, count, k),
        Role::Neither => Ok(Judged::Store(0)),
    }
}
