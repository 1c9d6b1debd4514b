// The conditions of one step: its rule, by its word, judged over what the work space shows of the step.
#![tactic(auto)]

mod table;

ghost use Rattle.std.specs.Prelude.{◌≡◌};
ghost use Rattle.rule_table.specs.Outcome.{step_outcome};

use rule_rows::cell;
use spec::Refusal;
use table::check_rule;
use workspace::{WORDS, rule_of};

// The conditions of step k.
pub fn check_step(work: &[u32], locations: u32, denominator: u32, k: u32) -> Result<(), Refusal>
    ensures { result ≡ step_outcome work.now locations denominator k }
{
    let r = rule_of(cell(work, WORDS, k));
    check_rule(r, work, locations, denominator, k)
}
