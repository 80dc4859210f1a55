use std::error::Error;
use std::fmt;

// Words that are no instruction's.
#[derive(Clone, Copy, Debug, PartialEq, Eq)]
pub struct NoInstr;

impl fmt::Display for NoInstr {
    fn fmt<W: fmt::Write>(&self, f: &mut fmt::Formatter<W>) -> fmt::Result {
        f.write_str("no instruction")
    }
}

impl Error for NoInstr {}
