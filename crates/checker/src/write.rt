ghost use Rattle.std.specs.Prelude.{◌≡◌, ℕ, ◌+◌, ◌-◌, ◌*◌, ◌<◌, ◌≤◌, List, [], ◌∷◌, length};
ghost use Rattle.language.specs.Syntax.{Ty};
ghost use Rattle.types.specs.Types.{type_of};
ghost use Rattle.scope.specs.Log.{gone_at};
ghost use Rattle.scope.specs.Loans.{ent_of};
ghost use Rattle.checker.specs.Marks.{State2, st};
ghost use Rattle.checker.specs.Machine.{val};
ghost use Rattle.checker.specs.Stands.{Decls, Lent, lent_in, Stands, Room};

use crate::state::{State, Words};
use code::Record;
use scope::loans::Entry;
use scope::log::{Place, push};
use types::ValueType;

// A value of a type, that has no loans.
pub fn set_value(at: &mut State, ty: ValueType)
    ensures log { at.new.log ≡ at.old.log }
    ensures stands { (d : Decls) (w : Lent) (s : State2) (t : Ty) → type_of w.text w.code ty ≡ t → Stands d w at.old s → Stands d w at.new (val s t []) }
    ensures room { (w : Lent) → Room w at.old → ty.boxes + 1 < 2 * 9223372036854775808 → Room w at.new }
{
    at.args = at.base;
    at.ty = ty;
}

// A value of a type, that has one entry of loans.
pub fn set_lent_value(words: &mut Words<'_>, at: &mut State, ty: ValueType, entry: Entry)
    requires { 2 * at.old.base + 1 < length words.old.args.now }
    ensures { (d : Decls) (text code : List ℕ) (s : State2) (t : Ty) → type_of text code ty ≡ t → Stands d (lent_in text code words.old) at.old s → Stands d (lent_in text code words.new) at.new (val s t (ent_of text entry ∷ [])) }
{
    entry.store(words.args, at.base);
    at.args = at.base + 1;
    at.ty = ty;
}

// The name at a place is gone, or there again.
pub fn set_gone(words: &mut Words<'_>, at: &mut State, place: Place, gone: bool)
    requires { 2 * at.old.log + 1 < length words.old.log.now }
    ensures stands { (d : Decls) (text code : List ℕ) (s : State2) → Stands d (lent_in text code words.old) at.old s → Stands d (lent_in text code words.new) at.new (st s.ty s.ents s.names (gone_at place.0 gone ∷ s.log) s.frames) }
    ensures height { at.new.log ≡ at.old.log + 1 }
{
    at.log = push(words.log, at.log, place, gone);
}
