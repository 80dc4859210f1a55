// Types: plain values, that name what stands in the code. Nothing is kept for them, and the code isn't changed.
#![tactic(auto)]

mod base;
mod layer;
mod numbers;
mod role;
mod same;
mod ty;

pub use layer::{behind, boxed, is_owned, shape};
pub use lexer::same_name;
pub use same::{Compared, same_type};
pub use ty::{Base, Outer, Shape, ValueType};
