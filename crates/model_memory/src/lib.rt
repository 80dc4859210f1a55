// What a run on trees is made of: values, roots, boxes by size, names in scope, and how many words things take.
#![tactic(auto)]

pub mod arith;
pub mod memory;
pub mod meter;
pub mod pools;
pub mod scope;
pub mod sizes;
pub mod stop;
pub mod streams;
pub mod value;
