ghost use Rattle.std.specs.Prelude.{◌≡◌, ℕ, ◌<◌, ◌&&◌, List, length, ◌==◌};
ghost use Rattle.language.specs.Syntax.{int, dat, mut};
ghost use Rattle.language.specs.Checks.{same_ty, is_last, types_of_pars};
ghost use Rattle.code.specs.Means.{means, optional};
ghost use Rattle.tables.specs.Declares.{last_of};
ghost use Rattle.tables.specs.Rest.{ok_drop, ok_main};
ghost use Rattle.tables.specs.Tables.{sigs_in, data_of, head_of, spelled, type_in};

use crate::refs::{DataRef, FnRef};
use crate::rows::Declared;
use crate::tables::Tables;
use code::{Instr, Record, decode};
use lexer::{Name, name_bytes};
use types::{Base, Outer, ValueType, behind, same_type};

// The function that an instruction names as called when data is dropped.
fn named_last(instr: Instr) -> Option<Name>
    ensures { (text : List ℕ) → last_of (means text instr) ≡ optional text result }
{
    match instr {
        Instr::Data(_, last) => last,
        Instr::Num(_) | Instr::Var(_) | Instr::Int | Instr::Op(_) | Instr::Make(_) => None,
        Instr::Call(_) | Instr::Arg | Instr::Apply | Instr::Box | Instr::Share(_) => None,
        Instr::Lend(_) | Instr::Load(_) | Instr::Get | Instr::Bind(_) | Instr::Assign(_) => None,
        Instr::Store(_) | Instr::Put | Instr::If | Instr::Else | Instr::EndIf => None,
        Instr::While | Instr::Do | Instr::EndWhile | Instr::Match(_, _) | Instr::Arm(_) => None,
        Instr::Part(_) | Instr::Body | Instr::EndArm | Instr::EndMatch => None,
        Instr::Open(_, _) | Instr::Inside(_, _) | Instr::Give | Instr::EndFn => None,
        Instr::TyInt | Instr::TyData(_) | Instr::TyBox | Instr::TyRef | Instr::TyMut => None,
        Instr::Field | Instr::Ctor(_) | Instr::Param(_) | Instr::Fn(_) => None,
    }
}

impl Tables<'_> {
    // Whether a type is int.
    fn is_int(self, ty: ValueType) -> bool
        ensures { result ≡ same_ty (type_in self.entry ty) int }
    {
        same_type(self.text, self.code, ty, ValueType::int())
    }

    // Whether it's data of that name, lent.
    fn is_lent(self, ty: ValueType, name: Name) -> bool
        ensures { result ≡ same_ty (type_in self.entry ty) (mut (dat (spelled self.entry name))) }
    {
        let lent = behind(Outer::Mut, ValueType::from(Base::Data(name)));
        same_type(self.text, self.code, ty, lent)
    }

    // Whether there is a function main that takes nothing and gives an int.
    pub fn main_ok(self) -> bool
        ensures { result ≡ ok_main (sigs_in self.entry) }
    {
        self.find_fn(b"main".as_slice())
            .is_some_and(|main| main.is_main())
    }
}

impl FnRef<'_> {
    // Whether it may be the last of the data type of that name: it takes one, lent, and gives an int.
    fn is_last(self, of: Name) -> bool
        ensures { result ≡ is_last (spelled self.entry.tables of) (types_of_pars (head_of self.entry).params) (head_of self.entry).ret }
    {
        let tables = self.tables;
        let params = self.params();
        if params.count() != 1 {
            return false;
        }
        tables.is_lent(tables.param_type(params.first), of) && tables.is_int(self.gives())
    }

    // Whether it takes nothing and gives an int.
    fn is_main(self) -> bool
        ensures { result ≡ (length (head_of self.entry).params == 0 && same_ty (head_of self.entry).ret int) }
    {
        self.params().count() == 0 && self.tables.is_int(self.gives())
    }
}

impl DataRef<'_> {
    // What it names as called when one is dropped.
    fn last(self) -> Option<Name>
        ensures { (data_of self.entry).last ≡ optional self.entry.tables.text.now result }
    {
        let at = Declared::load(self.tables.datas, self.number).at;
        named_last(decode(self.tables.code, at)?)
    }

    // Whether it has no last function, or one that may be.
    pub fn last_ok(self) -> bool
        ensures { result ≡ ok_drop (sigs_in self.entry.tables) (data_of self.entry) }
    {
        let Some(last) = self.last() else {
            return true;
        };
        if name_bytes(self.tables.text, last).is_empty() {
            return true;
        }
        let of = self.name();
        self.tables.find_fn(last).is_some_and(|f| f.is_last(of))
    }
}
