// What the columns of the work space say of a step: what its conditions look at, by the number of its parts.
ghost use Rattle.std.specs.Prelude.{◌≡◌, ◌<◌};
ghost use Rattle.workspace.specs.Layout.{work_size};
ghost use Rattle.rule_rows.specs.StepView.{cell, signature_of, bound_of, view_of, own_view, leaf_view, unary_view, binary_view};

use super::StepView;
use spec::{MapNumber, Signature, TypeNumber};
use workspace::{
    ENDS, LETS, LINES, POSTS, PRES, PROC_MARK, ROW_TYPES, SIG_AFTERS, SIG_ARGUMENTS, SIG_BEFORES,
    SIG_RESULTS, STARTS, VALUES, at, index,
};

// Entry i of the column that begins at base.
pub fn cell(work: &[u32], base: usize, i: u32) -> u32
    requires { base < work_size }
    ensures { result ≡ cell work.now base i }
{
    at(work, base + index(i))
}

// The signature of procedure f.
pub fn signature_of(work: &[u32], f: u32) -> Signature
    ensures { result ≡ signature_of work.now f }
{
    Signature {
        before: MapNumber(cell(work, SIG_BEFORES, f)),
        argument: TypeNumber(cell(work, SIG_ARGUMENTS, f)),
        after: MapNumber(cell(work, SIG_AFTERS, f)),
        result: TypeNumber(cell(work, SIG_RESULTS, f)),
    }
}

// The type of the variable that the let at this index binds, or the procedure with this mark.
#[tactic(auto, unfolding(crate::specs::StepView::bound_of))]
fn bound_of(work: &[u32], binder: u32) -> TypeNumber
    ensures { result ≡ bound_of work.now binder }
{
    if binder < PROC_MARK {
        TypeNumber(cell(work, ROW_TYPES + 1, binder))
    } else {
        TypeNumber(cell(work, SIG_ARGUMENTS, binder - PROC_MARK))
    }
}

// What every step shows: its line, its type and its post. Here and below what the conditions do not look at is not read, and
// is 0.
fn own_view(work: &[u32], locations: u32, denominator: u32, k: u32) -> StepView
    ensures { result ≡ own_view (view_of work.now locations denominator k) }
{
    StepView {
        line: cell(work, LINES, k),
        value: 0,
        locations,
        denominator,
        typed: TypeNumber(cell(work, ROW_TYPES, k)),
        type1: TypeNumber(0),
        type2: TypeNumber(0),
        bound: TypeNumber(0),
        pre: MapNumber(0),
        post: MapNumber(cell(work, POSTS, k)),
        start: MapNumber(0),
        post1: MapNumber(0),
        post2: MapNumber(0),
        signature: Signature {
            before: MapNumber(0),
            argument: TypeNumber(0),
            after: MapNumber(0),
            result: TypeNumber(0),
        },
    }
}

// What the conditions of step k look at, where it has no parts. The e1 of a let stands just behind the let.
pub fn leaf_view(work: &[u32], locations: u32, denominator: u32, k: u32) -> StepView
    ensures { result ≡ leaf_view (view_of work.now locations denominator k) }
{
    StepView {
        value: cell(work, VALUES, k),
        bound: bound_of(work, cell(work, LETS, k)),
        pre: MapNumber(cell(work, PRES, k)),
        ..own_view(work, locations, denominator, k)
    }
}

// Where it has one part, which stands just behind it.
pub fn unary_view(work: &[u32], locations: u32, denominator: u32, k: u32) -> StepView
    ensures { result ≡ unary_view (view_of work.now locations denominator k) }
{
    let value = cell(work, VALUES, k);
    StepView {
        value,
        type1: TypeNumber(cell(work, ROW_TYPES + 1, k)),
        pre: MapNumber(cell(work, PRES, k)),
        start: MapNumber(cell(work, STARTS, k)),
        post1: MapNumber(cell(work, POSTS + 1, k)),
        signature: signature_of(work, value),
        ..own_view(work, locations, denominator, k)
    }
}

// Where it has two parts: the second stands at the end of the first.
pub fn binary_view(work: &[u32], locations: u32, denominator: u32, k: u32) -> StepView
    ensures { result ≡ binary_view (view_of work.now locations denominator k) }
{
    let second = cell(work, ENDS + 1, k);
    StepView {
        type1: TypeNumber(cell(work, ROW_TYPES + 1, k)),
        type2: TypeNumber(cell(work, ROW_TYPES, second)),
        start: MapNumber(cell(work, STARTS, k)),
        post1: MapNumber(cell(work, POSTS + 1, k)),
        post2: MapNumber(cell(work, POSTS, second)),
        ..own_view(work, locations, denominator, k)
    }
}
