// 44: a lock takes at least what it gives, used or not.
ghost use Rattle.std.specs.Prelude.{◌≡◌, ◌≤◌};
ghost use Rattle.workspace.specs.Layout.{type_at};
ghost use Rattle.conditions.specs.Agreement.{takes_enough_in};
ghost use Rattle.conditions.specs.SheetOutcomes.{locks_outcome};

use super::{Relation, everywhere};
use spec::{Refusal, TypeLine, TypeNumber};
use workspace::type_at;

// The line of the split sheet's first type.
const FIRST_LINE: u32 = 2;

// Whether out of a type is nowhere below its in, if it is a lock's.
#[tactic(auto, unfolding(crate::specs::Agreement::takes_enough_in, spec::specs::Kinds::is, spec::specs::Kinds::same_kind, spec::specs::Kinds::first_map, spec::specs::Kinds::second_map))]
fn takes_enough(work: &[u32], locations: u32, t: TypeNumber) -> bool
    ensures { result ≡ takes_enough_in work.now locations (type_at work.now t) }
{
    match type_at(work, t) {
        TypeLine::Lock(load, out) => everywhere(work, locations, Relation::AtLeast(out, load)),
        _ => true,
    }
}

// The lowest lock line that takes less refuses.
pub fn check_locks(work: &[u32], locations: u32, types: u32) -> Result<(), Refusal>
    requires { types ≤ 64 }
    ensures { result ≡ locks_outcome work.now locations 0 types }
{
    for t in 0..types {
        if !takes_enough(work, locations, TypeNumber(t)) {
            return Err(Refusal::LockTakesLess(t + FIRST_LINE));
        }
    }
    Ok(())
}
