ghost use Rattle.std.specs.Prelude.{◌≡◌, ℕ, List};
ghost use Rattle.language.specs.Checks.{same_ty};
ghost use Rattle.types.specs.Types.{type_of, shape_of, Stands};

use crate::layer::shape;
use crate::ty::{Shape, ValueType};
use lexer::same_name;

// How two types compare by their outermost layers: the same, different, or as two types within them. Three ways to go on, which
// no Option or Result has.
#[derive(Clone, Copy)]
pub enum Compared {
    Same,
    Differ,
    Within(ValueType, ValueType),
}

// By hand and not derived: names are the same if they are spelled the same, which only the text tells.
fn compare(text: &[u8], x: Shape, y: Shape) -> Compared
    ensures { (code : List ℕ) → Stands text.now code result (shape_of text.now code x) (shape_of text.now code y) }
{
    match (x, y) {
        (Shape::Int, Shape::Int) => Compared::Same,
        (Shape::Data(a), Shape::Data(b)) => {
            if same_name(text, a, b) {
                Compared::Same
            } else {
                Compared::Differ
            }
        }
        (Shape::Box(a), Shape::Box(b)) => Compared::Within(a, b),
        (Shape::Ref(a), Shape::Ref(b)) => Compared::Within(a, b),
        (Shape::Mut(a), Shape::Mut(b)) => Compared::Within(a, b),
        (Shape::Int, Shape::Data(_) | Shape::Box(_) | Shape::Ref(_) | Shape::Mut(_)) =>
            Compared::Differ,
        (Shape::Data(_), Shape::Int | Shape::Box(_) | Shape::Ref(_) | Shape::Mut(_)) =>
            Compared::Differ,
        (Shape::Box(_), Shape::Int | Shape::Data(_) | Shape::Ref(_) | Shape::Mut(_)) =>
            Compared::Differ,
        (Shape::Ref(_), Shape::Int | Shape::Data(_) | Shape::Box(_) | Shape::Mut(_)) =>
            Compared::Differ,
        (Shape::Mut(_), Shape::Int | Shape::Data(_) | Shape::Box(_) | Shape::Ref(_)) =>
            Compared::Differ,
    }
}

// Whether two types are the same.
pub fn same_type(text: &[u8], code: &[u64], a: ValueType, b: ValueType) -> bool
    ensures { result ≡ same_ty (type_of text.now code.now a) (type_of text.now code.now b) }
{
    // A loop down the layers of both: no recursion, and nothing is counted.
    let mut x = a;
    let mut y = b;
    loop {
        match compare(text, shape(code, x), shape(code, y)) {
            Compared::Same => return true,
            Compared::Differ => return false,
            Compared::Within(inner_x, inner_y) => {
                x = inner_x;
                y = inner_y;
            }
        }
    }
}
