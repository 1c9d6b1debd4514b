// Which types agree, and which a var line may show.
ghost use Rattle.std.specs.Prelude.{◌≡◌, false, ◌&&◌};
ghost use Rattle.conditions.specs.Relation.{everywhere};
ghost use Rattle.conditions.specs.declared.Relation.TheVariants.{Equal};
ghost use Rattle.conditions.specs.Agreement.{lines_agree, agree_in, may_show_in};

use super::{Relation, everywhere};
use spec::{MapNumber, TypeLine, TypeNumber};
use workspace::type_at;

// Whether two maps hold equal numbers.
fn same(work: &[u32], locations: u32, a: MapNumber, b: MapNumber) -> bool
    ensures { result ≡ everywhere work.now locations (Equal a b) }
{
    everywhere(work, locations, Relation::Equal(a, b))
}

// Two types that hold no content agree when their kinds agree and their maps hold equal numbers.
#[tactic(auto, unfolding(crate::specs::Agreement::lines_agree, crate::specs::Agreement::maps_agree, spec::specs::Kinds::is, spec::specs::Kinds::same_kind))]
fn agree_plain(work: &[u32], locations: u32, kind: TypeLine, other: TypeLine) -> bool
    ensures { result ≡ lines_agree work.now locations (λ c d. false) kind other }
{
    match (kind, other) {
        (TypeLine::Int, TypeLine::Int) => true,
        (TypeLine::Tid(k), TypeLine::Tid(h)) | (TypeLine::Sem(k), TypeLine::Sem(h)) => {
            same(work, locations, k, h)
        }
        (TypeLine::Lock(a, b), TypeLine::Lock(c, d))
        | (TypeLine::Rwlock(a, b), TypeLine::Rwlock(c, d)) => {
            same(work, locations, a, c) && same(work, locations, b, d)
        }
        _ => false,
    }
}

// Two types agree when their kinds agree and their maps hold equal numbers; refs have the same location, and their contents
// are compared the same way. A type agrees with itself at once, which is what most that are asked come to. A content's number
// is smaller than its ref's in every sheet; where it is not, nothing agrees.
#[tactic(auto, using(crate::proofs::Agreement::itself_agrees, crate::proofs::Agreement::refs_apart, crate::proofs::Agreement::refs_not_smaller))]
fn agree(work: &&[u32], locations: u32, a: TypeNumber, b: TypeNumber) -> bool
    ensures { result ≡ agree_in work.now.now locations a b }
{
    if a == b {
        return true;
    }
    let (kind, other) = (type_at(*work, a), type_at(*work, b));
    let (TypeLine::Ref(p, c), TypeLine::Ref(q, d)) = (kind, other) else {
        return agree_plain(*work, locations, kind, other);
    };
    p == q && c.0 < a.0 && agree(work, locations, c, d)
}

// Whether two types agree. The work space is lent once more, by its address, so that a level hands on no copy.
pub fn agrees(work: &[u32], locations: u32, a: TypeNumber, b: TypeNumber) -> bool
    ensures { result ≡ agree_in work.now locations a b }
{
    agree(&work, locations, a, b)
}

// What a var line may show of the type of its let's value: a lock type whose in is nowhere above and whose out is nowhere below; else
// a type that agrees.
#[tactic(auto, unfolding(crate::specs::Agreement::may_show_in, spec::specs::Kinds::is, spec::specs::Kinds::same_kind, spec::specs::Kinds::first_map, spec::specs::Kinds::second_map))]
pub fn may_show(work: &[u32], locations: u32, shown: TypeNumber, own: TypeNumber) -> bool
    ensures { result ≡ may_show_in work.now locations shown own }
{
    if let TypeLine::Lock(i, o) = type_at(work, shown)
        && let TypeLine::Lock(j, p) = type_at(work, own)
    {
        return everywhere(work, locations, Relation::AtLeast(j, i))
            && everywhere(work, locations, Relation::AtLeast(o, p));
    }
    agrees(work, locations, shown, own)
}
