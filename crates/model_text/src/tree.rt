// Programs as trees. The nodes lie in lists, one for each kind, and a node has its parts by their numbers: so a tree is let go without
// going down into it, however deep it is, and what runs it can keep numbers in place of references.
use crate::fault::Fault;
pub use code::{Access, Operator};
use std::alloc::Global;
// A name, by the place where its spelling first stands in the text: names that are spelled alike are equal.
pub use lexer::Name;

#[derive(Clone, Copy)]
pub struct ExprId(pub usize);

#[derive(Clone, Copy)]
pub struct BodyId(pub usize);

// Nodes of one kind that lie one behind the other.
#[derive(Clone, Copy)]
pub struct Span {
    pub start: usize,
    pub end: usize,
}

// What stands before a type's name.
#[derive(Clone, Copy)]
pub enum Prefix {
    Box,
    Ref,
    Mut,
}

#[derive(Clone, Copy)]
pub enum Base {
    Int,
    Data(Name),
}

#[derive(Drop)]
pub struct Type {
    pub prefixes: Vec<Prefix>,
    pub base: Base,
}

#[derive(Clone, Copy)]
pub enum Expr {
    Number(u64),
    Variable(Name),
    Binary(Operator, ExprId, ExprId),
    Construct(Name, Span),
    Boxed(ExprId),
    Call(Name, Span),
    // &x
    Share(Name),
    // &mut x
    Lend(Name),
    // *r
    Load(Name),
    Get,
}

#[derive(Clone, Copy)]
pub enum Stmt {
    Bind(Name, ExprId),
    Assign(Name, ExprId),
    // *r = e
    Store(Name, ExprId),
    Put(ExprId),
    If(ExprId, Span, Span),
    While(ExprId, Span),
    Match(Access, Name, Span),
    // let x = open y, let x = inside y
    Open(Name, Name),
    Inside(Name, Name),
}

// One way of a match between statements: a constructor, the names of its parts, and the statements.
#[derive(Clone, Copy)]
pub struct Alt {
    pub ctor: Name,
    pub names: Span,
    pub block: Span,
}

// A function's body: statements, and what it gives.
#[derive(Clone, Copy)]
pub struct Body {
    pub block: Span,
    pub tail: Tail,
}

#[derive(Clone, Copy)]
pub enum Tail {
    Give(ExprId),
    GiveIf(ExprId, BodyId, BodyId),
    GiveMatch(Access, Name, Span),
}

// One way of a match that gives something.
#[derive(Clone, Copy)]
pub struct Arm {
    pub ctor: Name,
    pub names: Span,
    pub body: BodyId,
}

// By number and not as Box: nested boxes would be let go by recursion on the host's stack, which is a rule of the project to avoid, and
// each function that held references into the trees took the prover about twenty seconds.
#[derive(Drop)]
pub struct Nodes {
    pub exprs: Vec<Expr>,
    // the arguments of calls and constructors
    pub args: Vec<ExprId>,
    pub stmts: Vec<Stmt>,
    pub alts: Vec<Alt>,
    pub arms: Vec<Arm>,
    pub bodies: Vec<Body>,
    // the names in patterns
    pub names: Vec<Name>,
}

#[derive(Drop)]
pub struct Ctor {
    pub name: Name,
    pub fields: Vec<Type>,
}

#[derive(Drop)]
pub struct Data {
    pub name: Name,
    pub ctors: Vec<Ctor>,
    // the function that is called when one is dropped
    pub last: Option<Name>,
}

#[derive(Drop)]
pub struct Param {
    pub name: Name,
    pub ty: Type,
}

#[derive(Drop)]
pub struct Function {
    pub name: Name,
    pub params: Vec<Param>,
    pub gives: Type,
    pub body: BodyId,
    // the pieces of the body; 2^64 - 1 stands for more
    pub pieces: u64,
}

#[derive(Drop)]
pub struct Program {
    pub datas: Vec<Data>,
    pub functions: Vec<Function>,
    pub nodes: Nodes,
    // the name main, if the text has it
    pub main: Option<Name>,
}

impl Nodes {
    pub fn new(heap: Global) -> Self {
        Nodes {
            exprs: Vec::new(heap),
            args: Vec::new(heap),
            stmts: Vec::new(heap),
            alts: Vec::new(heap),
            arms: Vec::new(heap),
            bodies: Vec::new(heap),
            names: Vec::new(heap),
        }
    }
}

// Puts nodes behind those that are there: where they lie.
pub fn append<T: Copy>(list: &mut Vec<T>, more: &[T]) -> Result<Span, Fault> {
    let start = list.len();
    list.extend_from_slice(more)?;
    Ok(Span {
        start,
        end: list.len(),
    })
}
