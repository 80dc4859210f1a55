use lexer::Name;

// An operator on two numbers.
#[derive(Clone, Copy)]
pub enum Operator {
    Add,
    Sub,
    Mul,
    Div,
    Rem,
    Equal,
    Less,
}

// What a match does with the value that it looks at: takes it apart, looks into it, or lets its parts be written.
#[derive(Clone, Copy)]
pub enum Access {
    Take,
    View,
    Edit,
}

// An instruction. Operands stand before what is done with them, and each value is used by the instruction behind it: Int ends a left
// operand and Arg an argument; Make and Call open a list of arguments, and Apply ends it.
#[derive(Clone, Copy)]
pub enum Instr {
    // expressions
    Num(u64),
    Var(Name),
    Int,
    Op(Operator),
    Make(Name),
    Call(Name),
    Arg,
    Apply,
    Box,
    Share(Name),
    Lend(Name),
    Load(Name),
    Get,
    // statements, and what a function gives
    Bind(Name),
    Assign(Name),
    Store(Name),
    Put,
    If,
    Else,
    EndIf,
    While,
    Do,
    EndWhile,
    Match(Access, Name),
    Arm(Name),
    Part(Name),
    Body,
    EndArm,
    EndMatch,
    Open(Name, Name),
    Inside(Name, Name),
    Give,
    EndFn,
    // types, inside out: box ref int is TyInt, TyRef, TyBox
    TyInt,
    TyData(Name),
    TyBox,
    TyRef,
    TyMut,
    // declarations: each field's type and Field, Ctor, .., Data, with the function that is called when one is dropped;
    // each parameter's type and Param, the result's type, Fn, the body, EndFn
    Field,
    Ctor(Name),
    Data(Name, Option<Name>),
    Param(Name),
    Fn(Name),
}
