// The conditions at a `proc` line, document 02, request (xiv).
#![tactic(auto, unfolding(conditions::specs::Outcome::first_false_from, spec::specs::StepContexts::judge))]

ghost use Rattle.std.specs.Prelude.{◌≡◌};
ghost use Rattle.conditions.specs.Outcome.{first_false_from};
ghost use Rattle.rule_rows.specs.Table.{procedure_row};

use conditions::{Relation, agrees, flow, type_false};
use spec::{MapNumber, Refusal, Signature, TypeNumber};

// A procedure with the signature g, whose body has this type and this post: 1 type of the body is result; 2 post of the body
// ≥ after.
pub fn check_procedure(
    line: u32,
    work: &[u32],
    locations: u32,
    g: Signature,
    body: TypeNumber,
    post: MapNumber,
) -> Result<(), Refusal>
    ensures { result ≡ first_false_from line 1 (procedure_row work.now locations g body post) }
{
    if !agrees(work, locations, body, g.result) {
        return type_false(line, 1);
    }
    flow(line, 2, work, locations, Relation::AtLeast(post, g.after))
}
