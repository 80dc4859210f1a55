ghost use Rattle.std.specs.Prelude.{◌+◌, ◌<◌, ◌≤◌};
ghost use Rattle.language.specs.Base.{if_some};
ghost use Rattle.tables.specs.Index.{all_in};
ghost use Rattle.tables.specs.Sizes.{size_by, fields_by, ctors_by, cap, data_by};
ghost use Rattle.types.specs.Types.{written};
ghost use Rattle.tables.specs.Known.{Says, known as Known, sizes_by, the_field};
ghost use Rattle.tables.specs.Tables.{the_ctor, the_data, spelled};

use crate::refs::{CtorRef, DataRef};
use crate::sizing::Sizing;
use crate::span::Span;
use lexer::Name;
use types::{Shape, ValueType, shape};

// No data type is larger than that.
pub const LARGEST: u64 = 4096;

// What a word of the table of sizes tells. Words are lent, with no room for an Option: 0 stands for none, and no size is 0.
fn known(word: u64) -> Option<u64>
    ensures { Says (Known word) result }
{
    if word == 0 { None } else { Some(word) }
}

impl Sizing<'_> {
    // The size of the data type of that name, as far as it's known.
    fn named_size(self, name: Name) -> Option<u64>
        ensures { Says (sizes_by self.entry (spelled self.entry.tables name)) result }
    {
        let data = self.tables.find_data(name)?;
        known(self.sizes[data.number])
    }

    // The size of the type that stands before a slot of the code.
    fn type_size(self, slot: usize) -> Option<u64>
        ensures { Says (size_by (sizes_by self.entry) (written self.entry.tables.text.now self.entry.tables.code.now slot)) result }
    {
        match shape(self.tables.code, ValueType::written(slot)) {
            Shape::Data(name) => self.named_size(name),
            Shape::Int | Shape::Box(_) | Shape::Ref(_) | Shape::Mut(_) => Some(1),
        }
    }

    // The size of a constructor's fields, if it isn't too large.
    fn fields_size(self, fields: Span) -> Option<u64>
        requires { fields.end ≤ self.tables.done.fields.end }
        ensures { Says (if_some (fields_by (sizes_by self.entry) (all_in (the_field self.entry.tables) fields)) cap) result }
    {
        let mut sum = 0;
        // A `for` with `?`: the sum is given up on the way. By number: a span's first may lie behind its end, as no slice's does.
        for j in fields.first..fields.end {
            let size = self.type_size(self.tables.fields[j] as usize)?;
            if size > LARGEST - sum {
                return None;
            }
            sum += size;
        }
        Some(sum)
    }

    // The size of data with these constructors, if it isn't too large.
    fn ctors_size(self, ctors: Span) -> Option<u64>
        requires { ctors.end ≤ self.tables.done.ctors.end }
        ensures { Says (if_some (ctors_by (sizes_by self.entry) (all_in (the_ctor self.entry.tables) ctors)) (λ m. cap (1 + m))) result }
    {
        let tables = self.tables;
        let mut most = 0u64;
        // A `for` with `?`: the search for the largest is given up on the way.
        for number in ctors.first..ctors.end {
            let size = self.fields_size(CtorRef { tables, number }.fields())?;
            most = most.max(size);
        }
        (most < LARGEST).then(|| 1 + most)
    }

    // The size of a data type, from those that are known, if it isn't too large.
    pub(crate) fn data_size(self, number: usize) -> Option<u64>
        requires { number < self.tables.done.datas }
        ensures { Says (data_by (sizes_by self.entry) (the_data self.entry.tables number)) result }
    {
        let tables = self.tables;
        self.ctors_size(DataRef { tables, number }.ctors())
    }
}
