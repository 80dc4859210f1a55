ghost use Rattle.tables.specs.Tables.{FindsData, FindsCtor, FindsHome, FindsFn, spelled};

use crate::key::Key;
use crate::refs::{CtorRef, DataRef, FnRef, Owner};
use crate::rows::Declared;
use crate::span::Span;
use crate::table::find;
use crate::tables::Tables;
use lexer::Name;

impl<'a> Tables<'a> {
    // The data type of that name.
    pub fn find_data(self, name: Name) -> Option<DataRef<'a>>
        ensures { FindsData self.entry (spelled self.entry name) result }
    {
        let rows = Span::up_to(self.done.datas);
        let number = find::<Declared, Name>(self.text, self.datas, rows, name)?;
        Some(DataRef {
            tables: self,
            number,
        })
    }

    // The function that is spelled so.
    pub fn find_fn<K: Key>(self, key: K) -> Option<FnRef<'a>>
        ensures { FindsFn self.entry (K.spelled self.entry.text.now key) result }
    {
        let rows = Span::up_to(self.done.fns);
        let number = find::<Declared, K>(self.text, self.fns, rows, key)?;
        Some(FnRef {
            tables: self,
            number,
        })
    }

    // The first data type that has a constructor of that name.
    pub fn find_owner(self, name: Name) -> Option<Owner<'a>>
        ensures { FindsHome self.entry (spelled self.entry name) result }
    {
        // A `for`, since a closure of `find_map` that makes a reference would need clauses of its own.
        for number in 0..self.done.datas {
            let of = DataRef {
                tables: self,
                number,
            };
            if let Some(ctor) = of.find_ctor(name) {
                return Some(Owner { of, ctor });
            }
        }
        None
    }
}

impl<'a> DataRef<'a> {
    // The constructor of that name, among its own.
    pub fn find_ctor(self, name: Name) -> Option<CtorRef<'a>>
        ensures { FindsCtor self.entry (spelled self.entry.tables name) result }
    {
        let tables = self.tables;
        let number = find::<Declared, Name>(tables.text, tables.ctors, self.ctors(), name)?;
        Some(CtorRef { tables, number })
    }
}
