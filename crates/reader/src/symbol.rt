use code::Instr;
use lexer::Name;

// What the reader still has to find in the text, or to do: Emit gives an instruction out, a token has to stand there, and each
// other one is what the grammar has at one place. ArgsOn and its like are what may stand behind one of Args.
#[derive(Clone, Copy)]
pub enum Symbol {
    Emit(Instr),
    // tokens
    Else,
    Give,
    RightParen,
    RightBrace,
    Semicolon,
    Colon,
    // expressions
    Expr,
    Compared,
    Sum,
    Product,
    Factor,
    MoreSum,
    MoreProduct,
    Primary,
    Args,
    ArgsOn,
    // statements and bodies
    Names,
    SomeNames,
    Stmts,
    Block,
    Alts,
    Body,
    Tail,
    Arms,
    // types and items
    Ty,
    Fields,
    FieldsOn,
    SomeFields,
    Ctors,
    CtorsOn,
    Params,
    ParamsOn,
    SomeParams,
    DataEnd(Name),
    Items,
}
