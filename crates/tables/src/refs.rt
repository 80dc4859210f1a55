ghost use Rattle.std.specs.Prelude.{◌<◌};

use crate::tables::Tables;

// A data type, a constructor and a function: its tables, and the number of its row in them. Three types, so that none is taken for another:
// each is bounded by another table.
#[derive(Clone, Copy)]
pub struct DataRef<'a> {
    pub tables: Tables<'a>,
    pub number: usize,
    ghost there: { number < tables.done.datas },
}

#[derive(Clone, Copy)]
pub struct CtorRef<'a> {
    pub tables: Tables<'a>,
    pub number: usize,
    ghost there: { number < tables.done.ctors.end },
}

#[derive(Clone, Copy)]
pub struct FnRef<'a> {
    pub tables: Tables<'a>,
    pub number: usize,
    ghost there: { number < tables.done.fns },
}

// A constructor, and the data type that it's of.
#[derive(Clone, Copy)]
pub struct Owner<'a> {
    pub of: DataRef<'a>,
    pub ctor: CtorRef<'a>,
}
