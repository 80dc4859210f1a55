// Any text of the language, run on trees: slow and plain, and looking at every step whether something is there.
#![tactic(auto)]

mod drops;
mod eval;
mod exec;
pub mod input;
mod machine;
mod matching;
pub mod run;
mod task;
