use lexer::Name;

// What a type is behind: nothing, a shared reference, or one lent alone.
#[derive(Clone, Copy)]
pub enum Outer {
    Plain,
    Ref,
    Mut,
}

// What's innermost: int, data with that name, or what is written in the code, behind that many instructions.
#[derive(Clone, Copy)]
pub enum Base {
    Number,
    Data(Name),
    Written(usize),
}

// A type: so many boxes around what's innermost, and perhaps a reference to all that.
#[derive(Clone, Copy)]
pub struct ValueType {
    pub outer: Outer,
    pub boxes: usize,
    pub base: Base,
}

// A type by its outermost layer.
#[derive(Clone, Copy)]
pub enum Shape {
    Int,
    Data(Name),
    Box(ValueType),
    Ref(ValueType),
    Mut(ValueType),
}
