// The words that a program was started with.
use std::env::{Env, FillError};

// Whether there is an argument of this number; 0 is the program's name.
pub fn is_given<E: Env>(env: &E, i: usize) -> bool {
    let mut none = [0u8; 0];
    match env.arg(i, &mut none) {
        Ok(_) => true,
        Err(FillError::TooLong) => true,
        Err(FillError::NotPresent) => false,
    }
}
