// The declarations of a program: data, constructors and functions in lent words, their look-up, sizes, and what is asked besides bodies.
#![tactic(auto)]

ghost use Rattle.tables.specs.Sizes.{SizesRight};

mod access;
mod collecting;
mod fault;
mod heads;
mod key;
mod lookup;
mod measure;
mod parts;
mod progress;
mod refs;
mod repeated;
mod rest;
mod room;
mod row;
mod rows;
mod sizes;
mod sizing;
mod span;
mod table;
mod tables;
mod well;

pub use collecting::collect;
pub use fault::Fault;
pub use key::Key;
pub use progress::Progress;
pub use refs::{CtorRef, DataRef, FnRef, Owner};
pub use repeated::twice;
pub use room::Room;
pub use row::Row;
pub use rows::{Declared, Parameter};
pub use sizes::measure_all;
pub use sizing::Sizing;
pub use span::Span;
pub use table::find;
pub use tables::Tables;

// A table of sizes that one more round leaves as it is has the definition's sizes.
pub fn sizes_right() -> u8
    ensures { SizesRight }
{
    0
}
