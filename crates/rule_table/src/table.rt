// The rules of Figure 5 in the printed order, and behind them those of section 3.1.4, of read-write locks and of calls: a line a word, with
// what its row looks at.
ghost use Rattle.std.specs.Prelude.{◌≡◌};
ghost use Rattle.rule_table.specs.Outcome.{rule_outcome};

use concurrent_rules::{
    check_join, check_lock, check_newl, check_newrwlock, check_newsem, check_newt, check_post,
    check_rdlock, check_rdunlock, check_spawn, check_unlock, check_wait, check_wrlock,
    check_wrunlock,
};
use rule_rows::{binary_view, leaf_view, unary_view};
use sequential_rules::{
    check_call, check_if, check_int, check_let, check_read, check_ref, check_var, check_while,
    check_write,
};
use spec::Refusal;
use workspace::Rule;

// The conditions of step k, which has the rule r; D is the denominator.
pub(crate) fn check_rule(
    r: Rule,
    work: &[u32],
    locations: u32,
    d: u32,
    k: u32,
) -> Result<(), Refusal>
    ensures { result ≡ rule_outcome r work.now locations d k }
{
    match r {
        Rule::VAR => check_var(work, leaf_view(work, locations, d, k)),
        Rule::INT => check_int(work, leaf_view(work, locations, d, k)),
        Rule::LET => check_let(work, binary_view(work, locations, d, k)),
        Rule::IF => check_if(work, binary_view(work, locations, d, k)),
        Rule::WHILE => check_while(work, unary_view(work, locations, d, k)),
        Rule::NEWT => check_newt(work, leaf_view(work, locations, d, k)),
        Rule::SPAWN => check_spawn(work, binary_view(work, locations, d, k)),
        Rule::JOIN => check_join(work, unary_view(work, locations, d, k)),
        Rule::REF => check_ref(work, unary_view(work, locations, d, k)),
        Rule::WRITE => check_write(work, binary_view(work, locations, d, k)),
        Rule::READ => check_read(work, unary_view(work, locations, d, k)),
        Rule::NEWL => check_newl(work, leaf_view(work, locations, d, k)),
        Rule::LCK => check_lock(work, unary_view(work, locations, d, k)),
        Rule::ULCK => check_unlock(work, unary_view(work, locations, d, k)),
        Rule::NEWSEM => check_newsem(work, leaf_view(work, locations, d, k)),
        Rule::POST => check_post(work, unary_view(work, locations, d, k)),
        Rule::WAIT => check_wait(work, unary_view(work, locations, d, k)),
        Rule::NEWRWLOCK => check_newrwlock(work, leaf_view(work, locations, d, k)),
        Rule::RDLOCK => check_rdlock(work, unary_view(work, locations, d, k)),
        Rule::RDUNLOCK => check_rdunlock(work, unary_view(work, locations, d, k)),
        Rule::WRLOCK => check_wrlock(work, unary_view(work, locations, d, k)),
        Rule::WRUNLOCK => check_wrunlock(work, unary_view(work, locations, d, k)),
        Rule::CALL => check_call(work, unary_view(work, locations, d, k)),
    }
}
