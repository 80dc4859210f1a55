ghost use Rattle.std.specs.Prelude.{◌≡◌, ℕ, true, List, [], ◌∷◌, length};
ghost use Rattle.language.specs.Syntax.{Ty, int as Int, ref, mut};
ghost use Rattle.types.specs.declared.ty.Outer.TheVariants.{Plain};
ghost use Rattle.language.specs.Checks.{same_ty, loadable, loan};
ghost use Rattle.lexer.specs.Spelling.{spelling};
ghost use Rattle.code.specs.Instr.{i_num, i_int, i_box, i_var, i_share, i_lend, i_load};
ghost use Rattle.types.specs.Types.{type_of};
ghost use Rattle.checker.specs.Frames.{Ctx};
ghost use Rattle.language.specs.Base.{only_if};
ghost use Rattle.std.proofs.Math.Option.{some as Just};
ghost use Rattle.scope.specs.Slots.{Found};
ghost use Rattle.checker.specs.Marks.{State2, scope as Scope, held2};
ghost use Rattle.checker.specs.Machine.{exec2, value2, moved, free2, val, lent as Lent2};
ghost use Rattle.scope.specs.Loans.{leaf};
ghost use Rattle.checker.specs.Stands.{Decls, lent, Stands, Room, Steps, Left};

use crate::ask::{free, readable, there, type_at};
use crate::state::{Rule, Source, State, Words};
use crate::write::{set_gone, set_lent_value, set_value};
use lexer::Name;
use scope::loans::Entry;
use scope::log::Place;
use types::{Outer, Shape, ValueType, behind, boxed, is_owned, shape};

// Whether a type is that of numbers.
pub fn is_int(code: &[u64], ty: ValueType) -> bool
    ensures { (text : List ℕ) → result ≡ same_ty (type_of text code.now ty) Int }
{
    matches!(shape(code, ty), Shape::Int)
}

// A number, or one that's read.
pub fn number(source: &Source<'_>, words: &Words<'_>, at: &mut State)
    ensures { (d : Decls) (p : Ctx) (s : State2) (n : ℕ) → Stands d (lent source.now words.now) at.old s → Left d (lent source.now words.now) at.new (exec2 p (i_num n) s) }
{
    set_value(at, ValueType::int());
}

// A number is used: as an operand, or shown.
pub fn use_number(source: &Source<'_>, words: &Words<'_>, at: &mut State) -> Result<(), Rule>
    ensures { (d : Decls) (p : Ctx) (s : State2) → Stands d (lent source.now words.now) at.old s → Steps d (lent source.now words.now) at.new (exec2 p i_int s) result }
{
    if !is_int(source.code, at.ty) {
        return Err(Rule::NotInt);
    }
    set_value(at, ValueType::int());
    Ok(())
}

// What's owned, in a box.
pub fn box_value(source: &Source<'_>, words: &Words<'_>, at: &mut State) -> Result<(), Rule>
    requires { Room (lent source.now words.now) at.old }
    ensures { (d : Decls) (p : Ctx) (s : State2) → Stands d (lent source.now words.now) at.old s → Steps d (lent source.now words.now) at.new (exec2 p i_box s) result }
{
    if !is_owned(source.code, at.ty) {
        return Err(Rule::NotOwned);
    }
    let ty = boxed(at.ty);
    set_value(at, ty);
    Ok(())
}

// A name of a number: it's copied.
fn copied(source: &Source<'_>, words: &Words<'_>, at: &mut State, name: Name) -> Result<(), Rule>
    requires { Room (lent source.now words.now) at.old }
    ensures { (d : Decls) (s : State2) (f : Found) → f.slot.name ≡ spelling source.now.text.now name → Stands d (lent source.now words.now) at.old s → Steps d (lent source.now words.now) at.new (value2 s f Int) result }
{
    readable(source, words, at, name)?;
    set_value(at, ValueType::int());
    Ok(())
}

// A name of what's owned: it's moved.
fn moved_out(
    source: &Source<'_>,
    words: &mut Words<'_>,
    at: &mut State,
    name: Name,
    place: Place,
    ty: ValueType,
) -> Result<(), Rule>
    requires { Room (lent source.now words.old) at.old }
    ensures { (d : Decls) (s : State2) (f : Found) (t : Ty) → f.slot.name ≡ spelling source.now.text.now name → length f.older ≡ place.0 → type_of source.now.text.now source.now.code.now ty ≡ t → Stands d (lent source.now words.old) at.old s → Steps d (lent source.now words.new) at.new (only_if (free2 (held2 s.frames) (Scope s) f.slot.name) (Just (moved s f t))) result }
{
    free(source, words, at, name)?;
    set_value(at, ty);
    set_gone(words, at, place, true);
    Ok(())
}

// A name that is a shared reference: the same loans again.
fn shared_again(
    source: &Source<'_>,
    words: &mut Words<'_>,
    at: &mut State,
    name: Name,
    place: Place,
    ty: ValueType,
) -> Result<(), Rule>
    requires { Room (lent source.now words.old) at.old }
    ensures { (d : Decls) (s : State2) (f : Found) (t : Ty) → f.slot.name ≡ spelling source.now.text.now name → length f.older ≡ place.0 → type_of source.now.text.now source.now.code.now ty ≡ ref t → Stands d (lent source.now words.old) at.old s → Steps d (lent source.now words.new) at.new (value2 s f (ref t)) result }
{
    readable(source, words, at, name)?;
    set_lent_value(words, at, ty, Entry::Via(place));
    Ok(())
}

// A name that was lent alone: it's lent on.
fn lent_on(
    source: &Source<'_>,
    words: &mut Words<'_>,
    at: &mut State,
    name: Name,
    ty: ValueType,
) -> Result<(), Rule>
    requires { Room (lent source.now words.old) at.old }
    ensures { (d : Decls) (s : State2) (f : Found) (t : Ty) → f.slot.name ≡ spelling source.now.text.now name → type_of source.now.text.now source.now.code.now ty ≡ mut t → Stands d (lent source.now words.old) at.old s → Steps d (lent source.now words.new) at.new (value2 s f (mut t)) result }
{
    free(source, words, at, name)?;
    set_lent_value(words, at, ty, Entry::Alone(name));
    Ok(())
}

// A name as a value.
pub fn use_name(
    source: &Source<'_>,
    words: &mut Words<'_>,
    at: &mut State,
    name: Name,
) -> Result<(), Rule>
    requires { Room (lent source.now words.old) at.old }
    ensures { (d : Decls) (p : Ctx) (s : State2) → Stands d (lent source.now words.old) at.old s → Steps d (lent source.now words.new) at.new (exec2 p (i_var (spelling source.now.text.now name)) s) result }
{
    let place = there(source, words, at, name)?;
    let ty = type_at(words, place);
    match shape(source.code, ty) {
        Shape::Int => copied(source, words, at, name),
        Shape::Data(_) | Shape::Box(_) => moved_out(source, words, at, name, place, ty),
        Shape::Ref(_) => shared_again(source, words, at, name, place, ty),
        Shape::Mut(_) => lent_on(source, words, at, name, ty),
    }
}

// A shared loan of what a name has.
fn share_of(
    source: &Source<'_>,
    words: &mut Words<'_>,
    at: &mut State,
    name: Name,
    ty: ValueType,
) -> Result<(), Rule>
    requires { Room (lent source.now words.old) at.old }
    ensures { (d : Decls) (s : State2) (f : Found) (t : Ty) → f.slot.name ≡ spelling source.now.text.now name → ty.outer ≡ Plain → type_of source.now.text.now source.now.code.now ty ≡ t → Stands d (lent source.now words.old) at.old s → Steps d (lent source.now words.new) at.new (Lent2 s f t) result }
{
    readable(source, words, at, name)?;
    set_lent_value(words, at, behind(Outer::Ref, ty), Entry::Shared(name));
    Ok(())
}

// &x: of what is owned, or again of what was lent alone.
pub fn share(
    source: &Source<'_>,
    words: &mut Words<'_>,
    at: &mut State,
    name: Name,
) -> Result<(), Rule>
    requires { Room (lent source.now words.old) at.old }
    ensures { (d : Decls) (p : Ctx) (s : State2) → Stands d (lent source.now words.old) at.old s → Steps d (lent source.now words.new) at.new (exec2 p (i_share (spelling source.now.text.now name)) s) result }
{
    let place = there(source, words, at, name)?;
    let ty = type_at(words, place);
    match shape(source.code, ty) {
        // Three arms: as one pattern the proof didn't close, since the rule goes by each shape.
        Shape::Int => share_of(source, words, at, name, ty),
        Shape::Data(_) => share_of(source, words, at, name, ty),
        Shape::Box(_) => share_of(source, words, at, name, ty),
        Shape::Ref(_) => Err(Rule::NotOwned),
        Shape::Mut(inner) => share_of(source, words, at, name, inner),
    }
}

// A loan, alone, of what a name has.
fn lend_of(
    source: &Source<'_>,
    words: &mut Words<'_>,
    at: &mut State,
    name: Name,
    ty: ValueType,
) -> Result<(), Rule>
    requires { Room (lent source.now words.old) at.old }
    ensures { (d : Decls) (s : State2) (t : Ty) → ty.outer ≡ Plain → type_of source.now.text.now source.now.code.now ty ≡ t → Stands d (lent source.now words.old) at.old s → Steps d (lent source.now words.new) at.new (only_if (free2 (held2 s.frames) (Scope s) (spelling source.now.text.now name)) (Just (val s (mut t) (leaf (loan (spelling source.now.text.now name) true) ∷ [])))) result }
{
    free(source, words, at, name)?;
    set_lent_value(words, at, behind(Outer::Mut, ty), Entry::Alone(name));
    Ok(())
}

// &mut x: of what is owned and free.
pub fn lend(
    source: &Source<'_>,
    words: &mut Words<'_>,
    at: &mut State,
    name: Name,
) -> Result<(), Rule>
    requires { Room (lent source.now words.old) at.old }
    ensures { (d : Decls) (p : Ctx) (s : State2) → Stands d (lent source.now words.old) at.old s → Steps d (lent source.now words.new) at.new (exec2 p (i_lend (spelling source.now.text.now name)) s) result }
{
    let place = there(source, words, at, name)?;
    let ty = type_at(words, place);
    if !is_owned(source.code, ty) {
        return Err(Rule::NotOwned);
    }
    lend_of(source, words, at, name, ty)
}

// Whether a type is of a reference to a number.
fn is_loadable(code: &[u64], ty: ValueType) -> bool
    ensures { (text : List ℕ) → result ≡ loadable (type_of text code.now ty) }
{
    match shape(code, ty) {
        Shape::Int | Shape::Data(_) | Shape::Box(_) => false,
        Shape::Ref(inner) => is_int(code, inner),
        Shape::Mut(inner) => is_int(code, inner),
    }
}

// *r: the number behind a reference, that's readable.
pub fn load(source: &Source<'_>, words: &Words<'_>, at: &mut State, name: Name) -> Result<(), Rule>
    requires { Room (lent source.now words.now) at.old }
    ensures { (d : Decls) (p : Ctx) (s : State2) → Stands d (lent source.now words.now) at.old s → Steps d (lent source.now words.now) at.new (exec2 p (i_load (spelling source.now.text.now name)) s) result }
{
    let place = there(source, words, at, name)?;
    let ty = type_at(words, place);
    if !is_loadable(source.code, ty) {
        return Err(Rule::NotAReference);
    }
    readable(source, words, at, name)?;
    set_value(at, ValueType::int());
    Ok(())
}
