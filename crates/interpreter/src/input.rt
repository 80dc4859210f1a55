// Numbers to read, from a text of them.
use std::alloc::{AllocError, AllocFailed, Global};

#[derive(Clone, Copy)]
pub enum InputFault {
    NotANumber,
    Memory,
}

// By hand: no derive writes the second one, which is for each type of what was not stored.
impl From<AllocError> for InputFault {
    fn from(_: AllocError) -> Self {
        InputFault::Memory
    }
}

impl<T: Drop> From<AllocFailed<T>> for InputFault {
    fn from(_: AllocFailed<T>) -> Self {
        InputFault::Memory
    }
}

// A number in decimal, modulo 2^64.
fn number(word: &str) -> Result<u64, InputFault> {
    word.chars().try_fold(0u64, |value, each| {
        let digit = each.to_digit(10).ok_or(InputFault::NotANumber)?;
        Ok(value.wrapping_mul(10).wrapping_add(u64::from(digit)))
    })
}

// The numbers of a text, with blanks or lines between them.
pub fn numbers(heap: Global, text: &str) -> Result<Vec<u64>, InputFault> {
    text.split_ascii_whitespace().map(number).try_collect(heap)
}
