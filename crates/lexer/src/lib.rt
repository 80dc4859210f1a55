// A text, cut up into tokens.
#![tactic(auto)]

mod classify;
mod lexer;
mod name;
mod scan;
mod shown;
mod spell;
mod token;
mod word;

pub use lexer::Lexer;
pub use name::Name;
pub use spell::{Spelled, name_bytes, same_name};
pub use token::{Keyword, Sign, Token};
