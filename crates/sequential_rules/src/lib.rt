// The rules of the words that a thread does alone, on values, cells, branches and calls, and what a `proc` line asks of its
// procedure.
#![tactic(auto)]

mod procedures;
mod rows;

pub use procedures::check_procedure;
pub use rows::{
    check_call, check_if, check_int, check_let, check_read, check_ref, check_var, check_while,
    check_write,
};
