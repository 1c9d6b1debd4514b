// The words that a program was started with.
use std::env::{Env, FillError};

// Whether there is an argument of this number; the first behind the program's own name is number 1.
pub fn is_given<R: Env>(rt: &R, number: usize) -> bool {
    !matches!(rt.arg(number, &mut [0; 1]), Err(FillError::NotPresent))
}
