ghost use Rattle.std.specs.Prelude.{◌≡◌, ℕ, List};
ghost use Rattle.types.specs.Types.{role_of, role_at, made, written, shape_of, Inner};

use crate::ty::{Shape, ValueType};
use code::{Instr, decode};
use lexer::Name;

// What an instruction makes of the type that is under way: types are written inside out, and end with what is declared of them.
#[derive(Clone, Copy)]
pub enum Role {
    Int,
    Named(Name),
    Boxed,
    Shared,
    Lent,
    Ends,
}

impl Role {
    // The outermost layer of what it makes of the type that stands before a slot.
    pub fn shape(self, slot: usize) -> Shape
        ensures layer { (text code : List ℕ) → shape_of text code result ≡ made text self (written text code slot) }
        ensures inner { Inner 0 result }
    {
        let inner = ValueType::written(slot);
        match self {
            Role::Int => Shape::Int,
            Role::Named(name) => Shape::Data(name),
            Role::Boxed => Shape::Box(inner),
            Role::Shared => Shape::Ref(inner),
            Role::Lent => Shape::Mut(inner),
            Role::Ends => Shape::Int,
        }
    }
}

// What an instruction makes of it; most let it be.
fn role_of(instr: Instr) -> Option<Role>
    ensures { result ≡ role_of instr }
{
    match instr {
        Instr::Num(_) | Instr::Var(_) | Instr::Int | Instr::Op(_) | Instr::Make(_) => None,
        Instr::Call(_) | Instr::Arg | Instr::Apply | Instr::Box | Instr::Share(_) => None,
        Instr::Lend(_) | Instr::Load(_) | Instr::Get | Instr::Bind(_) | Instr::Assign(_) => None,
        Instr::Store(_) | Instr::Put | Instr::If | Instr::Else | Instr::EndIf => None,
        Instr::While | Instr::Do | Instr::EndWhile | Instr::Match(_, _) | Instr::Arm(_) => None,
        Instr::Part(_) | Instr::Body | Instr::EndArm | Instr::EndMatch => None,
        Instr::Open(_, _) | Instr::Inside(_, _) | Instr::Give | Instr::EndFn => None,
        Instr::TyInt => Some(Role::Int),
        Instr::TyData(name) => Some(Role::Named(name)),
        Instr::TyBox => Some(Role::Boxed),
        Instr::TyRef => Some(Role::Shared),
        Instr::TyMut => Some(Role::Lent),
        Instr::Field | Instr::Ctor(_) | Instr::Data(_, _) => Some(Role::Ends),
        Instr::Param(_) | Instr::Fn(_) => Some(Role::Ends),
    }
}

// The same of a slot of the code; behind its end nothing is done.
pub fn role_at(code: &[u64], slot: usize) -> Option<Role>
    ensures { result ≡ role_at code.now slot }
{
    if slot >= code.len() / 3 {
        return None;
    }
    role_of(decode(code, slot)?)
}
