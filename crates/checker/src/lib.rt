// The checker of a function's body: one pass over its code. Each instruction is a function on the lent words and the heights of their
// stacks, which refuses exactly where the machine of specs/Machine does, and else leaves what stands for the machine's next state.
#![tactic(auto)]

ghost use Rattle.checker.specs.Promise.{BodyRight};

mod ask;
mod assigning;
mod control;
mod copy;
mod enter;
mod frames;
mod state;
mod value;
mod write;

pub use assigning::{assign, store};
pub use control::{begin_if, begin_while};
pub use enter::bind;
pub use frames::{Call, Frame, Match};
pub use state::{Rule, Source, State, Words};
pub use value::{box_value, lend, load, number, share, use_name, use_number};

// The machine accepts a function's body exactly if the rules do.
pub fn body_right() -> u8
    ensures { BodyRight }
{
    0
}
