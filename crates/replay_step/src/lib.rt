// The step of a thread's next word on numbers in a lent space, as far as it does not touch the records of threads: where the things that
// names name stand, and what the word comes to. `calls` has the step of a call.
#![tactic(auto)]

mod calls;
mod slots;
mod words;

pub use slots::thing_at;
pub use words::{Act, Halt, gives, reduce};
