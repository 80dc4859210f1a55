// Texts of the language read into trees, by a reading of the model's own. Its loops end by the text, and are counted up to u64::MAX: a
// measure of what is left of the text would need a clause of its own at each function here.
#![tactic(auto)]

mod cursor;
pub mod fault;
pub mod parse;
mod parse_body;
mod parse_expr;
mod parse_ways;
mod precedence;
pub mod tree;
