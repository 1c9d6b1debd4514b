// What the stored lines of a program list, with their variables in scope: each is bound once, and used only in its let's e2 or its
// procedure's body. `binders` judges one step and what binds its variable.
#![tactic(auto)]

mod binders;

ghost use Rattle.std.specs.Prelude.{◌≡◌, ◌≤◌, get_or, set, None, Some};
ghost use Rattle.program_scopes.specs.Scopes.{PartScoped, BodyScopable, BodyScoped, Scopable, Scoped};
ghost use Rattle.program_scopes.specs.Resolved.{Resolvable, Resolved};

use crate::binders::{Judged, judge};
use program_tree::Stored;
use spec::Refusal;
use workspace::{LETS, PROC_FIRSTS, PROC_LINES, PROC_MARK, PROC_VARS, SIZE, VALUES};

// What binds each variable: the index of its let, or the mark of its procedure.
type Table = [Option<u32>; 256];

// What binds a variable; nothing past the table's end.
fn binder(table: &Table, v: usize) -> Option<u32>
    ensures { result ≡ get_or table.now v None }
{
    table.get(v).copied().flatten()
}

// Sets what binds a variable.
fn bind(table: &mut Table, v: usize, k: u32)
    ensures { table.new ≡ set table.old v (Some k) }
{
    if v < table.len() {
        table[v] = Some(k);
    }
}

// The steps from index `from` to index `to`, judged in line order with a table; stores what each `var` means.
fn scope_steps(
    work: &mut [u32; SIZE],
    table: &mut Table,
    count: usize,
    from: usize,
    to: usize,
) -> Result<(), Refusal>
    requires { (from ≤ to) × (to ≤ 256) }
    ensures { PartScoped count from to work.old work.new table.old table.new result }
{
    for k in from..to {
        let v = workspace::index(work[VALUES + k]);
        let b = binder(table, v);
        let judged = judge(work, count, k, b)?;
        work[LETS + k] = match judged {
            Judged::Bind => {
                bind(table, v, k as u32);
                0
            }
            Judged::Store(x) => x,
        };
    }
    Ok(())
}

// The procedure f binds its variable in a table, and its body is judged.
fn scope_body(
    work: &mut [u32; SIZE],
    table: &mut Table,
    count: usize,
    f: usize,
) -> Result<(), Refusal>
    requires { BodyScopable count f work.old }
    ensures { BodyScoped count f work.old work.new table.old table.new result }
{
    let v = workspace::index(work[PROC_VARS + f]);
    if binder(table, v).is_some() {
        return Err(Refusal::Rebound(work[PROC_LINES + f]));
    }
    let mark = PROC_MARK + f as u32;
    bind(table, v, mark);
    let from = workspace::index(work[PROC_FIRSTS + f]);
    let to = workspace::index(work[PROC_FIRSTS + (f + 1)]);
    scope_steps(work, table, count, from, to)
}

// Whether each variable is bound once, by a let or a procedure, and used only in its scope, and each call names a procedure, judged
// in line order; stores which let or procedure each `var` means.
fn scopes(work: &mut [u32; SIZE], n: usize, count: usize) -> Result<(), Refusal>
    requires { Scopable n count work.old }
    ensures { Scoped n count work.old work.new result }
{
    let mut table = [None; 256];
    for f in 0..count {
        scope_body(work, &mut table, count, f)?;
    }
    let root = workspace::index(work[PROC_FIRSTS + count]);
    scope_steps(work, &mut table, count, root, n)
}

// Whether the lines stored list `count` procedures and a root, with their variables in scope; stores where steps end, where the root
// begins, and which let or procedure each `var` means.
pub fn resolve(work: &mut [u32; SIZE], stored: Stored, count: usize) -> Result<(), Refusal>
    requires { Resolvable stored count work.old }
    ensures { Resolved stored count work.old work.new result }
{
    let root = stored.structure(work, count)?;
    work[PROC_FIRSTS + count] = root as u32;
    scopes(work, stored.steps, count)
}
