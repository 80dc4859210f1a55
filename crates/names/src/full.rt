use std::error::Error;
use std::fmt;

// A table of names in which every bucket is taken, by another name.
#[derive(Clone, Copy, Debug, PartialEq, Eq)]
pub struct Full;

impl fmt::Display for Full {
    fn fmt<W: fmt::Write>(&self, f: &mut fmt::Formatter<W>) -> fmt::Result {
        f.write_str("the table of names is full")
    }
}

impl Error for Full {}
