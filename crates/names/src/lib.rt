// Names by number: a table in lent words in which each spelling has one place, so that two names are the same if their places are.
#![tactic(auto)]

mod full;
mod hash;
mod interner;
mod pass;
mod rename;
mod spot;

pub use full::Full;
pub use interner::Interner;
pub use pass::canonical;
