ghost use Rattle.std.specs.Prelude.{◌≡◌, true};
ghost use Rattle.language.specs.Base.{present};
ghost use Rattle.language.specs.Checks.{owned, well_made, data_named};
ghost use Rattle.types.specs.Types.{written};
ghost use Rattle.tables.specs.Rest.{ok_field};
ghost use Rattle.tables.specs.Tables.{datas_in, spelled, type_in};

use crate::tables::Tables;
use lexer::Name;
use types::{Shape, ValueType, is_owned, shape};

impl Tables<'_> {
    // Whether there is a data type of that name.
    fn exists(self, name: Name) -> bool
        ensures { result ≡ present (data_named (datas_in self.entry) (spelled self.entry name)) }
    {
        self.find_data(name).is_some()
    }

    // Of what's owned: whether it is well made, which is up to what's innermost.
    fn inner_exists(self, ty: ValueType) -> bool
        ensures { owned (type_in self.entry ty) ≡ true → result ≡ well_made (datas_in self.entry) (type_in self.entry ty) }
    {
        // A loop down the layers: no recursion, and nothing is counted.
        let mut t = ty;
        loop {
            match shape(self.code, t) {
                Shape::Int => return true,
                Shape::Data(name) => return self.exists(name),
                Shape::Box(inner) => t = inner,
                Shape::Ref(_) | Shape::Mut(_) => return false,
            }
        }
    }

    // Whether a type is well made: of data that exists, and a reference only of what's owned.
    pub fn well_made(self, ty: ValueType) -> bool
        ensures { result ≡ well_made (datas_in self.entry) (type_in self.entry ty) }
    {
        let inner = match shape(self.code, ty) {
            Shape::Int => return true,
            Shape::Data(name) => return self.exists(name),
            Shape::Box(inner) | Shape::Ref(inner) | Shape::Mut(inner) => inner,
        };
        is_owned(self.code, inner) && self.inner_exists(inner)
    }

    // Whether the type before a slot may be a field's: owned and well made.
    pub fn field_ok(self, slot: usize) -> bool
        ensures { result ≡ ok_field (datas_in self.entry) (written self.entry.text.now self.entry.code.now slot) }
    {
        let ty = ValueType::written(slot);
        is_owned(self.code, ty) && self.well_made(ty)
    }
}
