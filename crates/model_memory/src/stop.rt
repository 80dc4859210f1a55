// What ends a run before its end.
use model_text::fault::Fault;
use std::alloc::{AllocError, AllocFailed};
use std::fmt;

#[derive(Clone, Copy, PartialEq, Eq)]
pub enum Stop {
    // the text is no program
    NoText,
    // something is not there, or of no such kind
    Wrong,
    NoHeap,
    NoStack,
    NoTurns,
    NoOutput,
    // past the interpreter's own budget
    TooDeep,
    // the host has no memory left
    Memory,
}

// What is said of it.
impl fmt::Display for Stop {
    fn fmt<W: fmt::Write>(&self, f: &mut fmt::Formatter<W>) -> fmt::Result {
        f.write_str(match self {
            Stop::NoText => "no text",
            Stop::Wrong => "wrong",
            Stop::NoHeap => "no room for a box",
            Stop::NoStack => "no room for what is under way",
            Stop::NoTurns => "no turns left",
            Stop::NoOutput => "no room in the output",
            Stop::TooDeep => "too deep",
            Stop::Memory => "out of memory",
        })
    }
}

// By hand: no derive writes the second one, which is for each type of what was not stored.
impl From<AllocError> for Stop {
    fn from(_: AllocError) -> Self {
        Stop::Memory
    }
}

impl<T: Drop> From<AllocFailed<T>> for Stop {
    fn from(_: AllocFailed<T>) -> Self {
        Stop::Memory
    }
}

impl From<Fault> for Stop {
    fn from(fault: Fault) -> Self {
        match fault {
            Fault::NoText => Stop::NoText,
            Fault::TooDeep => Stop::TooDeep,
            Fault::Memory => Stop::Memory,
        }
    }
}
