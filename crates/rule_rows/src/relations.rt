// What the rules of Figure 5 ask, a row of conditions each over a view of the step, as definitions; and as code what the rows
// share: a condition on types, and a relation between maps at every location of the sheet.
ghost use Rattle.std.specs.Prelude.{◌≡◌};
ghost use Rattle.spec.specs.Conditions.{T};
ghost use Rattle.spec.specs.Kinds.{int, is};
ghost use Rattle.spec.specs.StepContexts.{judge};
ghost use Rattle.workspace.specs.Layout.{type_at};
ghost use Rattle.conditions.specs.Agreement.{agree_in};
ghost use Rattle.conditions.specs.declared.Relation.TheVariants.{Equal, AtLeast, Sum};
ghost use Rattle.rule_rows.specs.Table.{flows};

use crate::StepView;
use conditions::{Relation, agrees, flow, type_false};
use spec::{MapNumber, Refusal, TypeLine, TypeNumber};
use workspace::type_at;

impl StepView {
    // The step's type is int.
    #[tactic(auto, unfolding(spec::specs::StepContexts::judge, spec::specs::Kinds::is, spec::specs::Kinds::same_kind))]
    pub fn is_int(self, work: &[u32], condition: u32) -> Result<(), Refusal>
        ensures { result ≡ judge self.line condition (T (is int (type_at work.now self.typed))) }
    {
        match type_at(work, self.typed) {
            TypeLine::Int => Ok(()),
            _ => type_false(self.line, condition),
        }
    }

    // Two types agree.
    #[tactic(auto, unfolding(spec::specs::StepContexts::judge))]
    pub fn agree(
        self,
        work: &[u32],
        condition: u32,
        a: TypeNumber,
        b: TypeNumber,
    ) -> Result<(), Refusal>
        ensures { result ≡ judge self.line condition (T (agree_in work.now self.locations a b)) }
    {
        if agrees(work, self.locations, a, b) {
            Ok(())
        } else {
            type_false(self.line, condition)
        }
    }

    // a = b.
    pub fn equal(
        self,
        work: &[u32],
        condition: u32,
        a: MapNumber,
        b: MapNumber,
    ) -> Result<(), Refusal>
        ensures { result ≡ judge self.line condition (flows work.now self (Equal a b)) }
    {
        flow(
            self.line,
            condition,
            work,
            self.locations,
            Relation::Equal(a, b),
        )
    }

    // a ≥ b.
    pub fn at_least(
        self,
        work: &[u32],
        condition: u32,
        a: MapNumber,
        b: MapNumber,
    ) -> Result<(), Refusal>
        ensures { result ≡ judge self.line condition (flows work.now self (AtLeast a b)) }
    {
        flow(
            self.line,
            condition,
            work,
            self.locations,
            Relation::AtLeast(a, b),
        )
    }

    // a + b = c.
    pub fn sum(
        self,
        work: &[u32],
        condition: u32,
        a: MapNumber,
        b: MapNumber,
        c: MapNumber,
    ) -> Result<(), Refusal>
        ensures { result ≡ judge self.line condition (flows work.now self (Sum a b c)) }
    {
        flow(
            self.line,
            condition,
            work,
            self.locations,
            Relation::Sum(a, b, c),
        )
    }
}
