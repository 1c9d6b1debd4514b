// The rules of the words on threads, locks, semaphores and read-write locks.
#![tactic(auto)]

mod loads;
mod rows;

pub use loads::{
    check_join, check_lock, check_post, check_rdlock, check_rdunlock, check_unlock, check_wait,
    check_wrlock, check_wrunlock,
};
pub use rows::{check_newl, check_newrwlock, check_newsem, check_newt, check_spawn};
