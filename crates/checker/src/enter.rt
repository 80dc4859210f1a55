ghost use Rattle.std.specs.Prelude.{◌≡◌, ℕ, ◌+◌, ◌-◌, ◌*◌, ◌<◌, ◌≤◌, List, ◌∷◌, length};
ghost use Rattle.lexer.specs.Spelling.{spelling};
ghost use Rattle.code.specs.Instr.{i_bind};
ghost use Rattle.scope.specs.Slots.{slot_of};
ghost use Rattle.checker.specs.Frames.{Ctx};
ghost use Rattle.checker.specs.Marks.{State2, rest, scope as Scope};
ghost use Rattle.checker.specs.Machine.{exec2, entered, fresh2};
ghost use Rattle.checker.specs.Stands.{Decls, lent, lent_in, Stands, Room, Steps};
ghost use Rattle.checker.specs.Outcome.{Holds};

use crate::ask::refused_if;
use crate::copy::copy_loans;
use crate::state::{Rule, Source, State, Words};
use crate::write::set_gone;
use code::Record;
use lexer::Name;
use scope::log::Place;
use scope::names::{Variable, seek};
use types::ValueType;

// Refuses a name that's in scope already.
pub fn fresh(source: &Source<'_>, words: &Words<'_>, at: &State, name: Name) -> Result<(), Rule>
    requires { Room (lent source.now words.now) at.now }
    ensures { (d : Decls) (s : State2) → Stands d (lent source.now words.now) at.now s → Holds (fresh2 (Scope s) (spelling source.now.text.now name)) result }
{
    let found = seek(source.text, words.names, at.names, name);
    refused_if(found.is_some(), Rule::NotNew)
}

// A name more, which takes the value and its entries. `of_caller`: whether all its loans are of what the caller lent.
fn add_name(words: &mut Words<'_>, at: &mut State, name: Name, of_caller: bool)
    requires { (7 * at.old.names + 6 < length words.old.names.now) × ((2 * (at.old.loans + (at.old.args - at.old.base)) ≤ length words.old.loans.now) × ((at.old.base ≤ at.old.args) × (2 * at.old.args ≤ length words.old.args.now))) }
    ensures stands { (d : Decls) (text code : List ℕ) (s : State2) → Stands d (lent_in text code words.old) at.old s → Stands d (lent_in text code words.new) at.new (rest (slot_of (spelling text name) s.ty s.ents ∷ s.names) s.log s.frames) }
    ensures log { (at.new.log ≡ at.old.log) × (words.new.log.now ≡ words.old.log.now) }
{
    let variable = Variable {
        name,
        ty: at.ty,
        loans: at.loans,
        lent: of_caller,
    };
    let count = at.args - at.base;
    copy_loans(words, at.base, at.loans, count);
    variable.store(words.names, at.names);
    at.names += 1;
    at.loans += count;
    at.args = at.base;
    at.ty = ValueType::int();
}

// A new name: an entry of the log says that it's there.
pub fn enter(words: &mut Words<'_>, at: &mut State, name: Name, of_caller: bool)
    requires { (7 * at.old.names + 6 < length words.old.names.now) × ((2 * (at.old.loans + (at.old.args - at.old.base)) ≤ length words.old.loans.now) × ((at.old.base ≤ at.old.args) × ((2 * at.old.args ≤ length words.old.args.now) × (2 * at.old.log + 1 < length words.old.log.now)))) }
    ensures { (d : Decls) (text code : List ℕ) (s : State2) → Stands d (lent_in text code words.old) at.old s → Stands d (lent_in text code words.new) at.new (entered s (spelling text name) s.ty s.ents s.log) }
{
    let place = Place(at.names);
    add_name(words, at, name, of_caller);
    set_gone(words, at, place, false);
}

// let x = e: x is new, and has the value's loans.
pub fn bind(
    source: &Source<'_>,
    words: &mut Words<'_>,
    at: &mut State,
    name: Name,
    of_caller: bool,
) -> Result<(), Rule>
    requires { Room (lent source.now words.old) at.old }
    ensures { (d : Decls) (p : Ctx) (s : State2) → Stands d (lent source.now words.old) at.old s → Steps d (lent source.now words.new) at.new (exec2 p (i_bind (spelling source.now.text.now name)) s) result }
{
    fresh(source, words, at, name)?;
    enter(words, at, name, of_caller);
    Ok(())
}
