ghost use Rattle.std.specs.Prelude.{◌≡◌, ℕ, ◌+◌, ◌<◌, true, List};
ghost use Rattle.language.specs.Syntax.{box};
ghost use Rattle.types.specs.declared.ty.Outer.TheVariants.{Plain};
ghost use Rattle.language.specs.Checks.{owned};
ghost use Rattle.types.specs.Types.{written, base_of, type_of, shape_of, Inner, Bare, within, boxes};

use crate::role::role_at;
use crate::ty::{Base, Outer, Shape, ValueType};

// The outermost layer of what is written behind that many instructions. `inner`, here and below, is what loops over layers count down by.
fn written_shape(code: &[u64], slot: usize) -> Shape
    ensures layer { (text : List ℕ) → shape_of text code.now result ≡ written text code.now slot }
    ensures inner { Inner 0 result }
{
    // No `find_map`: what `rev` of a range yields, no lemma says.
    for k in (0..slot).rev() {
        if let Some(role) = role_at(code, k) {
            return role.shape(k);
        }
    }
    Shape::Int
}

// The outermost layer of a type.
pub fn shape(code: &[u64], ty: ValueType) -> Shape
    ensures layer { (text : List ℕ) → shape_of text code.now result ≡ type_of text code.now ty }
    ensures inner { Inner ty.boxes result }
    ensures bare { Bare result ty.outer }
{
    let inner = ValueType {
        outer: Outer::Plain,
        ..ty
    };
    match ty.outer {
        Outer::Ref => Shape::Ref(inner),
        Outer::Mut => Shape::Mut(inner),
        Outer::Plain => {
            if let Some(boxes) = ty.boxes.checked_sub(1) {
                return Shape::Box(ValueType { boxes, ..inner });
            }
            base_shape(code, ty.base)
        }
    }
}

// The outermost layer of what's innermost.
fn base_shape(code: &[u64], base: Base) -> Shape
    ensures layer { (text : List ℕ) → shape_of text code.now result ≡ base_of text code.now base }
    ensures inner { Inner 0 result }
{
    match base {
        Base::Number => Shape::Int,
        Base::Data(name) => Shape::Data(name),
        Base::Written(slot) => written_shape(code, slot),
    }
}

// Whether a type is of what's owned: no reference in it.
pub fn is_owned(code: &[u64], ty: ValueType) -> bool
    ensures { (text : List ℕ) → result ≡ owned (type_of text code.now ty) }
{
    // A loop down the layers: no recursion, and nothing is counted.
    let mut t = ty;
    loop {
        match shape(code, t) {
            Shape::Int => return true,
            Shape::Data(_) => return true,
            Shape::Box(inner) => t = inner,
            Shape::Ref(_) => return false,
            Shape::Mut(_) => return false,
        }
    }
}

// A box of an owned type.
pub fn boxed(ty: ValueType) -> ValueType
    requires { ty.boxes + 1 < 18446744073709551616 }
    ensures is { (text code : List ℕ) → owned (type_of text code ty) ≡ true → type_of text code result ≡ box (type_of text code ty) }
    ensures count { result.boxes ≡ ty.boxes + 1 }
{
    ValueType {
        outer: Outer::Plain,
        boxes: ty.boxes + 1,
        ..ty
    }
}

// A reference to what a plain type is of.
pub fn behind(outer: Outer, ty: ValueType) -> ValueType
    ensures is { (text code : List ℕ) → ty.outer ≡ Plain → type_of text code result ≡ within outer (type_of text code ty) }
    ensures count { result.boxes ≡ ty.boxes }
{
    ValueType { outer, ..ty }
}
