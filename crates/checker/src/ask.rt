ghost use Rattle.std.specs.Prelude.{◌≡◌, ℕ, ◌+◌, ◌*◌, ◌<◌, ◌≤◌, [], ◌++◌, length, not};
ghost use Rattle.language.specs.Base.{some_of};
ghost use Rattle.lexer.specs.Spelling.{spelling};
ghost use Rattle.scope.specs.Loans.{asks, leaves};
ghost use Rattle.scope.specs.Slots.{stack, seek as Seek, variable_at};
ghost use Rattle.checker.specs.Marks.{State2, held2, scope as Scope, live};
ghost use Rattle.checker.specs.Machine.{there2, readable2, free2};
ghost use Rattle.checker.specs.Stands.{Decls, lent, Stands, Room};
ghost use Rattle.checker.specs.Held.{held_in, There, Low};
ghost use Rattle.checker.specs.Outcome.{Holds};

use crate::frames::Frame;
use crate::state::{Rule, Source, State, Words};
use code::Record;
use lexer::Name;
use scope::loans::{Asked, is_lent};
use scope::log::{Place, is_gone};
use scope::names::{Variable, has_loan, seek};
use types::ValueType;

// Whether an argument that's already there has such a loan of a name.
fn is_held(
    text: &[u8],
    args: &[u64],
    base: usize,
    frames: &[u64],
    count: usize,
    name: Name,
    asked: Asked,
) -> bool
    requires { (2 * base ≤ length args.now) × (10 * count ≤ length frames.now) }
    ensures { result ≡ some_of (asks asked (spelling text.now name)) (leaves (held_in text.now args.now frames.now count base)) }
{
    let mut top = base;
    for n in (0..count).rev() {
        match Frame::load(frames, n) {
            Frame::Call(call) => {
                if is_lent(text, args, call.base, top, name, asked) {
                    return true;
                }
                top = top.min(call.base);
            }
            Frame::Then(_, _) | Frame::Else(_) | Frame::Test(_, _) => return false,
            Frame::Loop(_, _, _, _) | Frame::Match(_) => return false,
        }
    }
    false
}

// Whether a name in scope has such a loan of a name.
pub fn is_lent_by_names(
    source: &Source<'_>,
    words: &Words<'_>,
    at: &State,
    name: Name,
    asked: Asked,
) -> bool
    requires { Room (lent source.now words.now) at.now }
    ensures { (d : Decls) (s : State2) → Stands d (lent source.now words.now) at.now s → result ≡ some_of (asks asked (spelling source.now.text.now name)) (leaves (stack (Scope s))) }
{
    has_loan(
        source.text,
        words.names,
        at.names,
        words.loans,
        at.loans,
        name,
        asked,
    )
}

// Whether an argument or a name in scope has such a loan of a name.
pub fn is_lent_now(
    source: &Source<'_>,
    words: &Words<'_>,
    at: &State,
    name: Name,
    asked: Asked,
) -> bool
    requires { Room (lent source.now words.now) at.now }
    ensures { (d : Decls) (s : State2) → Stands d (lent source.now words.now) at.now s → result ≡ some_of (asks asked (spelling source.now.text.now name)) (leaves (held2 s.frames ++ stack (Scope s))) }
{
    if is_held(
        source.text,
        words.args,
        at.base,
        words.frames,
        at.frames,
        name,
        asked,
    ) {
        return true;
    }
    is_lent_by_names(source, words, at, name, asked)
}

// The place of a name that's in scope and hasn't been moved.
pub fn there(source: &Source<'_>, words: &Words<'_>, at: &State, name: Name) -> Result<Place, Rule>
    requires { Room (lent source.now words.now) at.now }
    ensures is { (d : Decls) (s : State2) → Stands d (lent source.now words.now) at.now s → There source.now.text.now source.now.code.now words.now.names.now at.now.names (spelling source.now.text.now name) (there2 (Scope s) (live s) (spelling source.now.text.now name)) result }
    ensures within { Low at.now.names result }
{
    let place = seek(source.text, words.names, at.names, name).ok_or(Rule::NotThere)?;
    if is_gone(words.log, at.log, words.gaps, at.gaps, place) {
        return Err(Rule::NotThere);
    }
    Ok(place)
}

// The place of a name that's in scope, be it gone or not.
pub fn place_of(
    source: &Source<'_>,
    words: &Words<'_>,
    at: &State,
    name: Name,
) -> Result<Place, Rule>
    requires { Room (lent source.now words.now) at.now }
    ensures is { (d : Decls) (s : State2) → Stands d (lent source.now words.now) at.now s → There source.now.text.now source.now.code.now words.now.names.now at.now.names (spelling source.now.text.now name) (Seek (Scope s) (spelling source.now.text.now name)) result }
    ensures within { Low at.now.names result }
{
    seek(source.text, words.names, at.names, name).ok_or(Rule::NotThere)
}

// The type of the name at a place.
pub fn type_at(words: &Words<'_>, place: Place) -> ValueType
    requires { 7 * place.0 + 6 < length words.now.names.now }
    ensures { result ≡ (variable_at words.now.names.now place.0).ty }
{
    Variable::load(words.names, place.0).ty
}

// Refuses, by that rule, a name that somebody has a loan of, or that's in scope already.
pub(crate) fn refused_if(lent: bool, rule: Rule) -> Result<(), Rule>
    ensures { Holds (not lent) result }
{
    if lent { Err(rule) } else { Ok(()) }
}

// Four from here on, since each has the clause that its callers' proofs name.

// Refuses what is not readable: somebody has the name alone.
pub fn readable(source: &Source<'_>, words: &Words<'_>, at: &State, name: Name) -> Result<(), Rule>
    requires { Room (lent source.now words.now) at.now }
    ensures { (d : Decls) (s : State2) → Stands d (lent source.now words.now) at.now s → Holds (readable2 (held2 s.frames) (Scope s) (spelling source.now.text.now name)) result }
{
    let lent = is_lent_now(source, words, at, name, Asked::Alone);
    refused_if(lent, Rule::NotReadable)
}

// Refuses what is not free: somebody has a loan of the name.
pub fn free(source: &Source<'_>, words: &Words<'_>, at: &State, name: Name) -> Result<(), Rule>
    requires { Room (lent source.now words.now) at.now }
    ensures { (d : Decls) (s : State2) → Stands d (lent source.now words.now) at.now s → Holds (free2 (held2 s.frames) (Scope s) (spelling source.now.text.now name)) result }
{
    let lent = is_lent_now(source, words, at, name, Asked::Any);
    refused_if(lent, Rule::NotFree)
}

// The same in a statement, where no argument is under way.
pub fn readable_by_names(
    source: &Source<'_>,
    words: &Words<'_>,
    at: &State,
    name: Name,
) -> Result<(), Rule>
    requires { Room (lent source.now words.now) at.now }
    ensures { (d : Decls) (s : State2) → Stands d (lent source.now words.now) at.now s → Holds (readable2 [] (Scope s) (spelling source.now.text.now name)) result }
{
    let lent = is_lent_by_names(source, words, at, name, Asked::Alone);
    refused_if(lent, Rule::NotReadable)
}

pub fn free_by_names(
    source: &Source<'_>,
    words: &Words<'_>,
    at: &State,
    name: Name,
) -> Result<(), Rule>
    requires { Room (lent source.now words.now) at.now }
    ensures { (d : Decls) (s : State2) → Stands d (lent source.now words.now) at.now s → Holds (free2 [] (Scope s) (spelling source.now.text.now name)) result }
{
    let lent = is_lent_by_names(source, words, at, name, Asked::Any);
    refused_if(lent, Rule::NotFree)
}
