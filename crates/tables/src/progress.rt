use crate::span::Span;

// How far the collecting is: how many data types and functions there are; the constructors of the data under way, the fields of the
// constructor and the parameters of the function under way, each up to the end of its table.
#[derive(Clone, Copy)]
pub struct Progress {
    pub datas: usize,
    pub fns: usize,
    pub ctors: Span,
    pub fields: Span,
    pub params: Span,
}

impl Progress {
    // A const and no Default: proofs have what it is by its value.
    pub const START: Progress = Progress {
        datas: 0,
        fns: 0,
        ctors: Span { first: 0, end: 0 },
        fields: Span { first: 0, end: 0 },
        params: Span { first: 0, end: 0 },
    };
}
