// What ends a reading before its end.
use std::alloc::{AllocError, AllocFailed};

#[derive(Clone, Copy)]
pub enum Fault {
    // the text is no program
    NoText,
    // more is open at a time than the reading has room for
    TooDeep,
    // the host has no memory left
    Memory,
}

// By hand: no derive writes the second one, which is for each type of what was not stored.
impl From<AllocError> for Fault {
    fn from(_: AllocError) -> Self {
        Fault::Memory
    }
}

impl<T: Drop> From<AllocFailed<T>> for Fault {
    fn from(_: AllocFailed<T>) -> Self {
        Fault::Memory
    }
}
