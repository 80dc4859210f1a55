ghost use Rattle.std.specs.Prelude.{◌≡◌};
ghost use Rattle.reader.specs.Symbol.{step};
ghost use Rattle.reader.specs.Symbol.{s_block, s_body, s_tail};
ghost use Rattle.reader.specs.Tokens.{Does};

use super::action::Action;
use super::cursor::Cursor;
use super::error::Expected;
use super::matching::{access, given_match};
use super::symbol::Symbol;
use code::Instr;
use lexer::{Keyword, Sign};

// Statements in braces.
pub fn block(c: &mut Cursor) -> Result<Action, Expected>
    ensures { Does c.old c.new result (step s_block) }
{
    c.expect(Sign::LeftBrace)?;
    Ok(Action::Push2([Symbol::Stmts, Symbol::RightBrace]))
}

// A function's body, or one of its parts.
pub fn body(c: &mut Cursor) -> Result<Action, Expected>
    ensures { Does c.old c.new result (step s_body) }
{
    c.expect(Sign::LeftBrace)?;
    Ok(Action::Push4([
        Symbol::Stmts,
        Symbol::Give,
        Symbol::Tail,
        Symbol::RightBrace,
    ]))
}

// What a body gives.
pub fn tail(c: &mut Cursor) -> Result<Action, Expected>
    ensures { Does c.old c.new result (step s_tail) }
{
    if c.accept(Keyword::If) {
        return Ok(Action::Push7([
            Symbol::Expr,
            Symbol::Emit(Instr::If),
            Symbol::Body,
            Symbol::Else,
            Symbol::Emit(Instr::Else),
            Symbol::Body,
            Symbol::Emit(Instr::EndIf),
        ]));
    }
    match access(c) {
        Some(way) => given_match(c, way),
        None => Ok(Action::Push2([Symbol::Expr, Symbol::Emit(Instr::Give)])),
    }
}
