use lexer::Name;

// A rule that the declarations of a program break, with the name that it's about: a data type, a constructor or a function declared
// twice; a constructor with more than eight fields, or with a field whose type isn't owned or doesn't exist; data whose last function
// is none, or isn't one that takes it and gives an int; data that has no size; no function main that takes nothing and gives an int.
#[derive(Clone, Copy)]
pub enum Fault {
    DataTwice(Name),
    CtorTwice(Name),
    FnTwice(Name),
    Fields(Name),
    Last(Name),
    Size(Name),
    Main,
}
