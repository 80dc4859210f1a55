ghost use Rattle.std.specs.Prelude.{◌≡◌};
ghost use Rattle.reader.specs.Symbol.{step, step_stmt, step_let, step_named, step_bound, step_store, step_flow, step_assign};
ghost use Rattle.reader.specs.Symbol.{s_stmts};
ghost use Rattle.reader.specs.Tokens.{text_of, Does};
ghost use Rattle.lexer.specs.Spelling.{spelling};

use super::action::Action;
use super::cursor::Cursor;
use super::error::Expected;
use super::matching::{access, matched};
use super::symbol::Symbol;
use code::Instr;
use lexer::{Keyword, Name, Sign};

// What a name is bound to, behind `let x =`.
fn bound(c: &mut Cursor, x: Name) -> Result<Action, Expected>
    ensures { Does c.old c.new result (step_bound (spelling (text_of c.old) x)) }
{
    if c.accept(Keyword::Open) {
        let y = c.lower(Expected::Name)?;
        return Ok(Action::Push3([
            Symbol::Semicolon,
            Symbol::Emit(Instr::Open(x, y)),
            Symbol::Stmts,
        ]));
    }
    if c.accept(Keyword::Inside) {
        let y = c.lower(Expected::Name)?;
        return Ok(Action::Push3([
            Symbol::Semicolon,
            Symbol::Emit(Instr::Inside(x, y)),
            Symbol::Stmts,
        ]));
    }
    Ok(Action::Push4([
        Symbol::Expr,
        Symbol::Semicolon,
        Symbol::Emit(Instr::Bind(x)),
        Symbol::Stmts,
    ]))
}

// Behind `let x`.
fn named(c: &mut Cursor, x: Name) -> Result<Action, Expected>
    ensures { Does c.old c.new result (step_named (spelling (text_of c.old) x)) }
{
    c.expect(Sign::Gets)?;
    bound(c, x)
}

// Behind let.
fn binding(c: &mut Cursor) -> Result<Action, Expected>
    ensures { Does c.old c.new result step_let }
{
    let x = c.lower(Expected::Name)?;
    named(c, x)
}

// Behind *: a name, and what is written where it points.
fn store(c: &mut Cursor) -> Result<Action, Expected>
    ensures { Does c.old c.new result step_store }
{
    let x = c.lower(Expected::Name)?;
    c.expect(Sign::Gets)?;
    Ok(Action::Push4([
        Symbol::Expr,
        Symbol::Semicolon,
        Symbol::Emit(Instr::Store(x)),
        Symbol::Stmts,
    ]))
}

// A name, and its new value. Apart from store, from which it differs in what is expected and in the instruction: one function for both
// would be handed a constructor of instructions and read no plainer.
fn assignment(c: &mut Cursor) -> Result<Action, Expected>
    ensures { Does c.old c.new result step_assign }
{
    let x = c.lower(Expected::Statement)?;
    c.expect(Sign::Gets)?;
    Ok(Action::Push4([
        Symbol::Expr,
        Symbol::Semicolon,
        Symbol::Emit(Instr::Assign(x)),
        Symbol::Stmts,
    ]))
}

// if, while, a match or an assignment.
fn flow(c: &mut Cursor) -> Result<Action, Expected>
    ensures { Does c.old c.new result step_flow }
{
    if c.accept(Keyword::If) {
        return Ok(Action::Push8([
            Symbol::Expr,
            Symbol::Emit(Instr::If),
            Symbol::Block,
            Symbol::Else,
            Symbol::Emit(Instr::Else),
            Symbol::Block,
            Symbol::Emit(Instr::EndIf),
            Symbol::Stmts,
        ]));
    }
    if c.accept(Keyword::While) {
        return Ok(Action::Push6([
            Symbol::Emit(Instr::While),
            Symbol::Expr,
            Symbol::Emit(Instr::Do),
            Symbol::Block,
            Symbol::Emit(Instr::EndWhile),
            Symbol::Stmts,
        ]));
    }
    match access(c) {
        Some(way) => matched(c, way),
        None => assignment(c),
    }
}

// A statement, and those behind it.
fn stmt(c: &mut Cursor) -> Result<Action, Expected>
    ensures { Does c.old c.new result step_stmt }
{
    if c.accept(Keyword::Let) {
        return binding(c);
    }
    if c.accept(Keyword::Put) {
        return Ok(Action::Push4([
            Symbol::Expr,
            Symbol::Semicolon,
            Symbol::Emit(Instr::Put),
            Symbol::Stmts,
        ]));
    }
    if c.accept(Sign::Star) {
        return store(c);
    }
    flow(c)
}

// Statements, up to a closing brace or give.
pub fn stmts(c: &mut Cursor) -> Result<Action, Expected>
    ensures { Does c.old c.new result (step s_stmts) }
{
    if c.at(Sign::RightBrace) || c.at(Keyword::Give) {
        return Ok(Action::Push0);
    }
    stmt(c)
}
