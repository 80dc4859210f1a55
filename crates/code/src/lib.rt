// Linear code: the instructions that a text is read into, and how they lie in lent words.
#![tactic(auto)]

mod from_slot;
mod instr;
mod listing;
mod no_instr;
mod numbers;
mod record;
mod slot;
mod to_slot;
mod words;

pub use instr::{Access, Instr, Operator};
pub use lexer::{Name, same_name};
pub use listing::{Listed, Listing};
pub use no_instr::NoInstr;
pub use record::Record;
pub use slot::Slot;
pub use words::{decode, encode};
