// What each name names, in the lent space, by the value that stands for the name.
ghost use Rattle.std.specs.Prelude.{◌≡◌};
ghost use Rattle.replay_step.specs.Slots.{thing_at, thing_put};

use replay_control::layout::{THING_FIRSTS, THING_KINDS, THING_SECONDS, VALUE_LIMIT};
use replay_control::put;
use replay_objects::{Slot, Thing};
use workspace::{at, index};

// What a value names.
#[tactic(auto, unfolding(crate::specs::Slots::thing_at))]
pub fn thing_at(space: &[u32], v: u32) -> Thing
    ensures { result ≡ thing_at space.now v }
{
    if VALUE_LIMIT <= v {
        return Thing::Unused;
    }
    let i = index(v);
    let slot = Slot {
        kind: at(space, THING_KINDS + i),
        first: at(space, THING_FIRSTS + i),
        second: at(space, THING_SECONDS + i),
    };
    slot.thing()
}

// A value names this from now on.
#[tactic(auto, unfolding(crate::specs::Slots::thing_put, crate::specs::Slots::slot_put))]
pub(crate) fn put_thing(space: &mut [u32], v: u32, x: Thing)
    ensures { space.new ≡ thing_put space.old v x }
{
    let i = index(v);
    let slot = Slot::of(x);
    put(space, THING_KINDS + i, slot.kind);
    put(space, THING_FIRSTS + i, slot.first);
    put(space, THING_SECONDS + i, slot.second);
}
