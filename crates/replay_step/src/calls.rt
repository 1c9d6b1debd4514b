// The step of a call: its body is entered, in a row of its own.
ghost use Rattle.std.specs.Prelude.{◌≡◌};
ghost use Rattle.replay_step.specs.Calls.{above as above_of, row_cleared, call_entered, called_space};

use replay_control::{ControlPoint, layout, put};
use workspace::{at, index};

// The row behind that one.
#[tactic(auto, unfolding(crate::specs::Calls::above))]
fn above(row: u32) -> u32
    ensures { result ≡ above_of row }
{
    if row < layout::ROWS { row + 1 } else { row }
}

// No variable of that row is bound.
#[tactic(auto, using(crate::proofs::Clearing::cleared_more), unfolding(crate::specs::Calls::row_cleared, crate::specs::Calls::row_cleared_from))]
fn clear_row(space: &mut [u32], row: u32)
    ensures { space.new ≡ row_cleared space.old row }
{
    for x in 0..layout::ROW {
        put(
            space,
            layout::ENVIRONMENTS + layout::ROW * index(row) + x,
            0,
        );
    }
}

// The call at that control point becomes the body of its procedure, which knows its argument alone. The step of the call is kept for the
// body's end.
#[tactic(auto, unfolding(crate::specs::Calls::call_entered, crate::specs::Calls::called_space, crate::specs::Calls::argument_put, crate::specs::Calls::callee_of))]
pub(crate) fn call(program: &[u32], space: &mut [u32], f: ControlPoint) -> ControlPoint
    ensures { (result ≡ call_entered program.now f) × (space.new ≡ called_space program.now space.old f) }
{
    let row = above(f.row);
    let procedure = at(program, workspace::VALUES + index(f.at));
    let x = at(program, workspace::PROC_VARS + index(procedure));
    clear_row(space, row);
    let argument = layout::ENVIRONMENTS + layout::ROW * index(row) + index(x);
    put(space, argument, f.value);
    put(space, layout::OPEN_CALLS + index(row), f.at);
    ControlPoint::entering(row, replay_control::first(program, procedure))
}
