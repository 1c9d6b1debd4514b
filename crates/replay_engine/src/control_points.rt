// Where each thread stands between two steps, in the lent space.
ghost use Rattle.std.specs.Prelude.{◌≡◌};
ghost use Rattle.replay_engine.specs.ControlPoints.{control_point_at, control_point_put, went_on};

use replay_control::layout::{
    CONTROL_POINT_MODES, CONTROL_POINT_PLACES, CONTROL_POINT_ROWS, CONTROL_POINT_VALUES,
};
use replay_control::{ControlPoint, Mode, put};
use workspace::{at, index};

#[tactic(auto, unfolding(crate::specs::ControlPoints::control_point_at))]
pub(crate) fn control_point_at(space: &[u32], t: u32) -> ControlPoint
    ensures { result ≡ control_point_at space.now t }
{
    let i = index(t);
    ControlPoint {
        mode: Mode::of(at(space, CONTROL_POINT_MODES + i)),
        at: at(space, CONTROL_POINT_PLACES + i),
        value: at(space, CONTROL_POINT_VALUES + i),
        row: at(space, CONTROL_POINT_ROWS + i),
    }
}

#[tactic(auto, unfolding(crate::specs::ControlPoints::control_point_put))]
fn put_control_point(space: &mut [u32], t: u32, f: ControlPoint)
    ensures { space.new ≡ control_point_put space.old t f }
{
    let i = index(t);
    put(space, CONTROL_POINT_MODES + i, f.mode.number());
    put(space, CONTROL_POINT_PLACES + i, f.at);
    put(space, CONTROL_POINT_VALUES + i, f.value);
    put(space, CONTROL_POINT_ROWS + i, f.row);
}

// Thread t goes on from there to its next word; whether it has finished.
#[tactic(auto, unfolding(crate::specs::ControlPoints::went_on, crate::specs::ControlPoints::settled))]
pub(crate) fn go_on(program: &[u32], space: &mut [u32], t: u32, f: ControlPoint) -> bool
    ensures { went_on program.now space.old t f ≡ (result, space.new) }
{
    let g = replay_control::next_redex(program, space, f);
    put_control_point(space, t, g);
    g.mode == Mode::Done
}
