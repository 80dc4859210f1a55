// Scopes of names: their types, loans and moves. Stacks lie in lent words, since nothing is allocated, and their heights are plain
// parameters, which the checker keeps together in one plain struct.
#![tactic(auto)]

pub mod loans;
pub mod log;
pub mod names;
pub mod words;
