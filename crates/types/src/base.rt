ghost use Rattle.std.specs.Prelude.{◌≡◌, ℕ, List};
ghost use Rattle.language.specs.Syntax.{int as Int};
ghost use Rattle.types.specs.declared.ty.Outer.TheVariants.{Plain};
ghost use Rattle.types.specs.Types.{written, type_of};

use crate::ty::{Base, Outer, ValueType};

// A type of what's innermost alone.
impl From<Base> for ValueType {
    ghost from_gives = { λ b t. t ≡ record { outer = Plain; boxes = 0; base = b } };

    fn from(base: Base) -> ValueType {
        ValueType {
            outer: Outer::Plain,
            boxes: 0,
            base,
        }
    }
}

impl ValueType {
    // The type of numbers.
    pub fn int() -> ValueType
        ensures is { (text code : List ℕ) → type_of text code result ≡ Int }
        ensures plain { result.outer ≡ Plain }
        ensures boxes { result.boxes ≡ 0 }
    {
        ValueType::from(Base::Number)
    }

    // The type that is written before a slot of the code.
    pub fn written(slot: usize) -> ValueType
        ensures is { (text code : List ℕ) → type_of text code result ≡ written text code slot }
        ensures plain { result.outer ≡ Plain }
        ensures boxes { result.boxes ≡ 0 }
    {
        ValueType::from(Base::Written(slot))
    }
}
