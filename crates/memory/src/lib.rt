// Memory lent to a run: words for boxes, in pools by size; words for what is under way; and turns, as a budget.
#![tactic(auto)]

pub mod budget;
pub mod pool;
pub mod row;
