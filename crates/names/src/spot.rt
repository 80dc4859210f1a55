use lexer::Name;

// Where a search in the table ended: at a name of that spelling, or at a free bucket. No Result, since neither is an error.
#[derive(Clone, Copy)]
pub enum Spot {
    Taken(Name),
    Free(usize),
}
