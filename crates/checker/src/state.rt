use types::ValueType;

// What is checked: a text, and the code that it was read into.
pub struct Source<'a> {
    pub text: &'a [u8],
    pub code: &'a [u64],
}

// The words that are lent for one function's check: names in scope, the entries of their loans, those of arguments and of the value, the
// log of moves, its gaps, frames, and for matches the constructors seen and where arms ended. They go from function to function beside
// the source and the state: the checker works in lent words, keeps all heights in a plain struct, and takes the words as a parameter.
pub struct Words<'a> {
    pub names: &'a mut [u64],
    pub loans: &'a mut [u64],
    pub args: &'a mut [u64],
    pub log: &'a mut [u64],
    pub gaps: &'a mut [u64],
    pub frames: &'a mut [u64],
    pub seen: &'a mut [u64],
    pub ends: &'a mut [u64],
}

// How high each stack is; the value's type, and where its entries begin among those of the arguments.
#[derive(Clone, Copy)]
pub struct State {
    pub names: usize,
    pub loans: usize,
    pub args: usize,
    pub base: usize,
    pub log: usize,
    pub gaps: usize,
    pub frames: usize,
    pub seen: usize,
    pub ends: usize,
    pub ty: ValueType,
}

// Which rule a text breaks.
#[derive(Clone, Copy)]
pub enum Rule {
    NotThere,
    NotNew,
    NotInt,
    NotOwned,
    NotAReference,
    NotABox,
    NotReadable,
    NotFree,
    OtherType,
    OutOfPlace,
    MovedInLoop,
}
