ghost use Rattle.std.specs.Prelude.{◌≡◌, false, List, [], ◌∷◌, length};
ghost use Rattle.std.proofs.Math.Option.{some as Just};
ghost use Rattle.language.specs.Base.{only_if};
ghost use Rattle.language.specs.Syntax.{Ty, mut};
ghost use Rattle.lexer.specs.Spelling.{spelling};
ghost use Rattle.code.specs.Instr.{i_assign, i_store};
ghost use Rattle.types.specs.Types.{type_of};
ghost use Rattle.scope.specs.Log.{gone_at};
ghost use Rattle.scope.specs.Slots.{Found};
ghost use Rattle.checker.specs.Frames.{Ctx};
ghost use Rattle.checker.specs.Marks.{State2, rest, scope as Scope};
ghost use Rattle.checker.specs.Machine.{exec2, free2, stores2};
ghost use Rattle.checker.specs.Stands.{Decls, lent, Stands, Room, Steps};

use crate::ask::{free_by_names, place_of, there, type_at};
use crate::state::{Rule, Source, State, Words};
use crate::write::{set_gone, set_value};
use lexer::Name;
use scope::log::Place;
use types::{Shape, ValueType, is_owned, same_type, shape};

// The value goes to a name that's free, which is there again.
fn put_back(
    source: &Source<'_>,
    words: &mut Words<'_>,
    at: &mut State,
    name: Name,
    place: Place,
) -> Result<(), Rule>
    requires { Room (lent source.now words.old) at.old }
    ensures { (d : Decls) (s : State2) (f : Found) → length f.older ≡ place.0 → Stands d (lent source.now words.old) at.old s → Steps d (lent source.now words.new) at.new (only_if (free2 [] (Scope s) (spelling source.now.text.now name)) (Just (rest s.names (gone_at (length f.older) false ∷ s.log) s.frames))) result }
{
    free_by_names(source, words, at, name)?;
    set_value(at, ValueType::int());
    set_gone(words, at, place, false);
    Ok(())
}

// x = e: x is owned and free, and of the value's type.
pub fn assign(
    source: &Source<'_>,
    words: &mut Words<'_>,
    at: &mut State,
    name: Name,
) -> Result<(), Rule>
    requires { Room (lent source.now words.old) at.old }
    ensures { (d : Decls) (p : Ctx) (s : State2) → Stands d (lent source.now words.old) at.old s → Steps d (lent source.now words.new) at.new (exec2 p (i_assign (spelling source.now.text.now name)) s) result }
{
    let place = place_of(source, words, at, name)?;
    let ty = type_at(words, place);
    if !is_owned(source.code, ty) {
        return Err(Rule::NotOwned);
    }
    if !same_type(source.text, source.code, at.ty, ty) {
        return Err(Rule::OtherType);
    }
    put_back(source, words, at, name, place)
}

// The value goes behind a name that's free.
fn let_go(source: &Source<'_>, words: &Words<'_>, at: &mut State, name: Name) -> Result<(), Rule>
    requires { Room (lent source.now words.now) at.old }
    ensures { (d : Decls) (s : State2) → Stands d (lent source.now words.now) at.old s → Steps d (lent source.now words.now) at.new (only_if (free2 [] (Scope s) (spelling source.now.text.now name)) (Just (rest s.names s.log s.frames))) result }
{
    free_by_names(source, words, at, name)?;
    set_value(at, ValueType::int());
    Ok(())
}

// The value is of the type that lies behind a name, and that's owned.
fn store_in(
    source: &Source<'_>,
    words: &Words<'_>,
    at: &mut State,
    name: Name,
    inner: ValueType,
) -> Result<(), Rule>
    requires { Room (lent source.now words.now) at.old }
    ensures { (d : Decls) (s : State2) (u : Ty) → type_of source.now.text.now source.now.code.now inner ≡ u → Stands d (lent source.now words.now) at.old s → Steps d (lent source.now words.now) at.new (stores2 s (spelling source.now.text.now name) (mut u)) result }
{
    if !is_owned(source.code, inner) {
        return Err(Rule::NotOwned);
    }
    if !same_type(source.text, source.code, at.ty, inner) {
        return Err(Rule::OtherType);
    }
    let_go(source, words, at, name)
}

// *r = e: r was lent alone, and is free.
pub fn store(source: &Source<'_>, words: &Words<'_>, at: &mut State, name: Name) -> Result<(), Rule>
    requires { Room (lent source.now words.now) at.old }
    ensures { (d : Decls) (p : Ctx) (s : State2) → Stands d (lent source.now words.now) at.old s → Steps d (lent source.now words.now) at.new (exec2 p (i_store (spelling source.now.text.now name)) s) result }
{
    let place = there(source, words, at, name)?;
    let ty = type_at(words, place);
    match shape(source.code, ty) {
        Shape::Int | Shape::Data(_) | Shape::Box(_) | Shape::Ref(_) => Err(Rule::NotAReference),
        Shape::Mut(inner) => store_in(source, words, at, name, inner),
    }
}
