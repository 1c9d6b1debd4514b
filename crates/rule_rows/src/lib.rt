// What the conditions of a step look at, and how the columns of the work space show it. The rules of Figure 5 as rows of conditions over
// such a view are definitions; `relations` has what their code shares.
#![tactic(auto)]

mod columns;
mod relations;

pub use columns::{binary_view, cell, leaf_view, signature_of, unary_view};
use spec::{MapNumber, Signature, TypeNumber};

// What the conditions of a step look at: the sheet's locations and denominator, the step's line and number, the types and
// maps of the step and of its parts, for a `var` the type of its let's e1 or of its procedure's argument, and for a `call`
// the signature of the procedure.
#[derive(Clone, Copy)]
pub struct StepView {
    pub line: u32,
    pub value: u32,
    pub locations: u32,
    pub denominator: u32,
    pub typed: TypeNumber,
    pub type1: TypeNumber,
    pub type2: TypeNumber,
    pub bound: TypeNumber,
    pub pre: MapNumber,
    pub post: MapNumber,
    pub start: MapNumber,
    pub post1: MapNumber,
    pub post2: MapNumber,
    pub signature: Signature,
}
