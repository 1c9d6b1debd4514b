// One line of a program sheet at a cursor, with its ranges: line 1, of a step, of a procedure.
#![tactic(auto)]

mod counts;
mod items;
mod tails;

pub use counts::{CountLine, count_line};
pub use items::{StepLine, step_line};
