ghost use Rattle.std.specs.Prelude.{◌≡◌, ◌<◌, ◌≤◌, true, false, MatchOption};
ghost use Rattle.language.specs.Base.{each_of};
ghost use Rattle.language.specs.Checks.{ok_ctor};
ghost use Rattle.tables.specs.Index.{all_in};
ghost use Rattle.tables.specs.Known.{the_field};
ghost use Rattle.tables.specs.Rest.{ok_field};
ghost use Rattle.tables.specs.Tables.{datas_in, the_ctor, data_of};

use crate::refs::{CtorRef, DataRef};
use crate::span::Span;
use crate::tables::Tables;

// No constructor has more fields than that.
const MOST_FIELDS: usize = 8;

impl Tables<'_> {
    fn fields_ok(self, fields: Span) -> bool
        requires { fields.end ≤ self.done.fields.end }
        ensures { result ≡ each_of (ok_field (datas_in self.entry)) (all_in (the_field self.entry) fields) }
    {
        // By number: a span's first may lie behind its end, as no slice's does.
        (fields.first..fields.end).all(|j| self.field_ok(self.fields[j] as usize))
    }

    fn ctor_ok(self, number: usize) -> bool
        requires { number < self.done.ctors.end }
        ensures { result ≡ ok_ctor (datas_in self.entry) (the_ctor self.entry number) }
    {
        let tables = self;
        let fields = CtorRef { tables, number }.fields();
        fields.count() <= MOST_FIELDS && self.fields_ok(fields)
    }

    // The number of the first of these constructors whose fields aren't as they should be.
    fn bad_ctor_in(self, ctors: Span) -> Option<usize>
        requires { ctors.end ≤ self.done.ctors.end }
        ensures { MatchOption result (each_of (ok_ctor (datas_in self.entry)) (all_in (the_ctor self.entry) ctors) ≡ true) (λ k. (each_of (ok_ctor (datas_in self.entry)) (all_in (the_ctor self.entry) ctors) ≡ false) × (k < ctors.end)) }
    {
        (ctors.first..ctors.end).find(|&c| !self.ctor_ok(c))
    }
}

impl<'a> DataRef<'a> {
    // The first of its constructors whose fields aren't as they should be.
    pub fn bad_ctor(self) -> Option<CtorRef<'a>>
        ensures { MatchOption result (each_of (ok_ctor (datas_in self.entry.tables)) (data_of self.entry).ctors ≡ true) (λ c. (each_of (ok_ctor (datas_in self.entry.tables)) (data_of self.entry).ctors ≡ false) × (c.tables ≡ self.entry.tables)) }
    {
        let tables = self.tables;
        let number = tables.bad_ctor_in(self.ctors())?;
        Some(CtorRef { tables, number })
    }
}
