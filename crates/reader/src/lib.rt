// From the bytes of a text to linear code in lent words, by a machine with a stack of symbols: one step a symbol, no recursion.
#![tactic(auto)]

mod action;
mod ahead;
mod body;
mod cursor;
mod error;
mod expr;
mod item;
mod lists;
mod machine;
mod matching;
mod progress;
mod reading;
mod record;
mod shown;
mod slots;
mod stmt;
mod symbol;
mod table;

pub use error::{Expected, Misread, ReadError};
pub use reading::{Code, least_words, read};
