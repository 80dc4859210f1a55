ghost use Rattle.std.specs.Prelude.{◌≡◌, [], ◌∷◌};
ghost use Rattle.reader.specs.Symbol.{step, step_match, step_arms};
ghost use Rattle.reader.specs.Symbol.{s_names, s_stmts, s_alts, s_arms};
ghost use Rattle.reader.specs.Steps.{Looked, symbol_of};
ghost use Rattle.reader.specs.Tokens.{text_of, Reads, Does};
ghost use Rattle.code.specs.Means.{access_of};

use super::action::Action;
use super::cursor::Cursor;
use super::error::Expected;
use super::symbol::Symbol;
use code::{Access, Instr};
use lexer::{Keyword, Name, Sign};

// How a match looks at its value, if one is next. No table as of signs and operators: it is the only one of keywords.
pub fn access(c: &mut Cursor) -> Option<Access>
    ensures { Reads c.old c.new (Looked result) }
{
    if c.accept(Keyword::Take) {
        return Some(Access::Take);
    }
    if c.accept(Keyword::View) {
        return Some(Access::View);
    }
    if c.accept(Keyword::Edit) {
        return Some(Access::Edit);
    }
    None
}

// The names of a constructor's parts, behind the bracket.
pub fn names(c: &mut Cursor) -> Result<Action, Expected>
    ensures { Does c.old c.new result (step s_names) }
{
    let x = c.lower(Expected::Name)?;
    if c.accept(Sign::Comma) {
        return Ok(Action::Push2([Symbol::Emit(Instr::Part(x)), Symbol::Names]));
    }
    c.expect(Sign::RightParen)?;
    Ok(Action::Emit(Instr::Part(x)))
}

// Behind take, view or edit: the name that is matched, and its alternatives.
pub fn matched(c: &mut Cursor, way: Access) -> Result<Action, Expected>
    ensures { Does c.old c.new result (step_match (access_of way) s_alts (s_stmts ∷ [])) }
{
    let x = c.lower(Expected::Name)?;
    c.expect(Sign::LeftBrace)?;
    Ok(Action::Push3([
        Symbol::Emit(Instr::Match(way, x)),
        Symbol::Alts,
        Symbol::Stmts,
    ]))
}

// The same at the end of a body. Two functions, since the actions are of two sizes.
pub fn given_match(c: &mut Cursor, way: Access) -> Result<Action, Expected>
    ensures { Does c.old c.new result (step_match (access_of way) s_arms []) }
{
    let x = c.lower(Expected::Name)?;
    c.expect(Sign::LeftBrace)?;
    Ok(Action::Push2([Symbol::Emit(Instr::Match(way, x)), Symbol::Arms]))
}

// The alternatives of a match, up to the closing brace: what an alternative has inside, and what reads those behind it.
pub fn arms(c: &mut Cursor, inside: Symbol, again: Symbol) -> Result<Action, Expected>
    ensures { Does c.old c.new result (step_arms (symbol_of (text_of c.old) inside) (symbol_of (text_of c.old) again)) }
{
    if c.accept(Sign::RightBrace) {
        return Ok(Action::Emit(Instr::EndMatch));
    }
    let ctor = c.upper()?;
    Ok(Action::Push6([
        Symbol::Emit(Instr::Arm(ctor)),
        Symbol::SomeNames,
        Symbol::Emit(Instr::Body),
        inside,
        Symbol::Emit(Instr::EndArm),
        again,
    ]))
}
