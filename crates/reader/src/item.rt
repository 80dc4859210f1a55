ghost use Rattle.std.specs.Prelude.{◌≡◌};
ghost use Rattle.reader.specs.Symbol.{step, step_data, step_fn, step_item, s_type, s_ctors, s_params, s_some_params, s_drop, s_items};
ghost use Rattle.reader.specs.Tokens.{text_of, Does};
ghost use Rattle.lexer.specs.Spelling.{spelling};

use super::action::Action;
use super::cursor::Cursor;
use super::error::Expected;
use super::symbol::Symbol;
use code::Instr;
use lexer::{Keyword, Name, Sign};

// A type: int, the name of data, or box, ref or mut and a type.
pub fn ty(c: &mut Cursor) -> Result<Action, Expected>
    ensures { Does c.old c.new result (step s_type) }
{
    if c.accept(Keyword::Int) {
        return Ok(Action::Emit(Instr::TyInt));
    }
    if c.accept(Keyword::Box) {
        return Ok(Action::Push2([Symbol::Ty, Symbol::Emit(Instr::TyBox)]));
    }
    if c.accept(Keyword::Ref) {
        return Ok(Action::Push2([Symbol::Ty, Symbol::Emit(Instr::TyRef)]));
    }
    if c.accept(Keyword::Mut) {
        return Ok(Action::Push2([Symbol::Ty, Symbol::Emit(Instr::TyMut)]));
    }
    let name = c.lower(Expected::Type)?;
    Ok(Action::Emit(Instr::TyData(name)))
}

// A constructor, and those behind it.
pub fn ctors(c: &mut Cursor) -> Result<Action, Expected>
    ensures { Does c.old c.new result (step s_ctors) }
{
    let ctor = c.upper()?;
    Ok(Action::Push3([
        Symbol::SomeFields,
        Symbol::Emit(Instr::Ctor(ctor)),
        Symbol::CtorsOn,
    ]))
}

// A parameter, and those behind it.
pub fn params(c: &mut Cursor) -> Result<Action, Expected>
    ensures { Does c.old c.new result (step s_params) }
{
    let x = c.lower(Expected::Name)?;
    c.expect(Sign::Colon)?;
    Ok(Action::Push3([Symbol::Ty, Symbol::Emit(Instr::Param(x)), Symbol::ParamsOn]))
}

// A function's parameters behind the bracket, or none.
pub fn some_params(c: &mut Cursor) -> Result<Action, Expected>
    ensures { Does c.old c.new result (step s_some_params) }
{
    if c.accept(Sign::RightParen) {
        return Ok(Action::Push0);
    }
    Ok(Action::Push1([Symbol::Params]))
}

// The end of data: the function that is called when it is dropped, or none.
pub fn data_end(c: &mut Cursor, name: Name) -> Result<Action, Expected>
    ensures { Does c.old c.new result (step (s_drop (spelling (text_of c.old) name))) }
{
    if c.accept(Keyword::Drop) {
        let last = c.lower(Expected::Name)?;
        return Ok(Action::Push2([
            Symbol::Semicolon,
            Symbol::Emit(Instr::Data(name, Some(last))),
        ]));
    }
    Ok(Action::Push2([Symbol::Semicolon, Symbol::Emit(Instr::Data(name, None))]))
}

// Behind data.
fn data_item(c: &mut Cursor) -> Result<Action, Expected>
    ensures { Does c.old c.new result step_data }
{
    let name = c.lower(Expected::Name)?;
    c.expect(Sign::Gets)?;
    Ok(Action::Push3([Symbol::Ctors, Symbol::DataEnd(name), Symbol::Items]))
}

// Behind fn.
fn fn_item(c: &mut Cursor) -> Result<Action, Expected>
    ensures { Does c.old c.new result step_fn }
{
    let name = c.lower(Expected::Name)?;
    c.expect(Sign::LeftParen)?;
    Ok(Action::Push7([
        Symbol::SomeParams,
        Symbol::Colon,
        Symbol::Ty,
        Symbol::Emit(Instr::Fn(name)),
        Symbol::Body,
        Symbol::Emit(Instr::EndFn),
        Symbol::Items,
    ]))
}

// Data or a function.
fn item(c: &mut Cursor) -> Result<Action, Expected>
    ensures { Does c.old c.new result step_item }
{
    if c.accept(Keyword::Data) {
        return data_item(c);
    }
    if c.accept(Keyword::Fn) {
        return fn_item(c);
    }
    Err(Expected::Item)
}

// The items, up to the text's end.
pub fn items(c: &mut Cursor) -> Result<Action, Expected>
    ensures { Does c.old c.new result (step s_items) }
{
    if c.at_end() {
        return Ok(Action::Push0);
    }
    item(c)
}
