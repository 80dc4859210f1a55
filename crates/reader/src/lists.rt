ghost use Rattle.std.specs.Prelude.{◌≡◌};
ghost use Rattle.lexer.specs.Tokens.{drawn};
ghost use Rattle.reader.specs.Lists.{step_behind, step_on};
ghost use Rattle.reader.specs.Steps.{symbol_of};
ghost use Rattle.reader.specs.Tokens.{text_of, Does};

use super::action::Action;
use super::cursor::Cursor;
use super::error::Expected;
use super::symbol::Symbol;
use lexer::Sign;

// What stands behind a sign, if the sign is next; else nothing.
pub fn behind(c: &mut Cursor, sign: Sign, it: Symbol) -> Result<Action, Expected>
    ensures { Does c.old c.new result (step_behind (drawn sign) (symbol_of (text_of c.old) it)) }
{
    if c.accept(sign) {
        return Ok(Action::Push1([it]));
    }
    Ok(Action::Push0)
}

// Behind a comma another one, or the closing bracket.
pub fn on(c: &mut Cursor, again: Symbol) -> Result<Action, Expected>
    ensures { Does c.old c.new result (step_on (symbol_of (text_of c.old) again)) }
{
    if c.accept(Sign::Comma) {
        return Ok(Action::Push1([again]));
    }
    c.expect(Sign::RightParen)?;
    Ok(Action::Push0)
}
