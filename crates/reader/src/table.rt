ghost use Rattle.reader.specs.Symbol.{step as step_of, s_token};
ghost use Rattle.reader.specs.Steps.{symbol_of};
ghost use Rattle.reader.specs.Tokens.{text_of, Does};

use super::action::Action;
use super::ahead::Asked;
use super::cursor::Cursor;
use super::error::Expected;
use super::symbol::Symbol;
use super::{body, expr, item, lists, matching, stmt};
use code::Instr;
use lexer::{Keyword, Sign};

// A sign or a keyword that has to stand here.
fn token<T: Asked>(c: &mut Cursor, asked: T) -> Result<Action, Expected>
    ensures { Does c.old c.new result (step_of (s_token (T.lexeme asked))) }
{
    c.expect(asked)?;
    Ok(Action::Push0)
}

// One step: what stands in the place of the symbol that was on top. One match with every arm: a symbol lies in lent words, and no
// step calls another.
pub fn step(c: &mut Cursor, symbol: Symbol) -> Result<Action, Expected>
    ensures { Does c.old c.new result (step_of (symbol_of (text_of c.old) symbol)) }
{
    match symbol {
        Symbol::Emit(i) => Ok(Action::Emit(i)),
        Symbol::Else => token(c, Keyword::Else),
        Symbol::Give => token(c, Keyword::Give),
        Symbol::RightParen => token(c, Sign::RightParen),
        Symbol::RightBrace => token(c, Sign::RightBrace),
        Symbol::Semicolon => token(c, Sign::Semicolon),
        Symbol::Colon => token(c, Sign::Colon),
        Symbol::Expr => Ok(Action::Push2([Symbol::Sum, Symbol::Compared])),
        Symbol::Compared => expr::compared(c),
        Symbol::Sum => Ok(Action::Push2([Symbol::Product, Symbol::MoreSum])),
        Symbol::Product => Ok(Action::Push2([Symbol::Factor, Symbol::MoreProduct])),
        Symbol::Factor => Ok(Action::Push1([Symbol::Primary])),
        Symbol::MoreSum => expr::more(c, &expr::SUMS, Symbol::Product, Symbol::MoreSum),
        Symbol::MoreProduct => expr::more(c, &expr::PRODUCTS, Symbol::Factor, Symbol::MoreProduct),
        Symbol::Primary => expr::primary(c),
        Symbol::Args => Ok(Action::Push3([Symbol::Expr, Symbol::Emit(Instr::Arg), Symbol::ArgsOn])),
        Symbol::ArgsOn => expr::args_on(c),
        Symbol::Names => matching::names(c),
        Symbol::SomeNames => lists::behind(c, Sign::LeftParen, Symbol::Names),
        Symbol::Stmts => stmt::stmts(c),
        Symbol::Block => body::block(c),
        Symbol::Alts => matching::arms(c, Symbol::Block, Symbol::Alts),
        Symbol::Body => body::body(c),
        Symbol::Tail => body::tail(c),
        Symbol::Arms => matching::arms(c, Symbol::Body, Symbol::Arms),
        Symbol::Ty => item::ty(c),
        Symbol::Fields => Ok(Action::Push3([
            Symbol::Ty,
            Symbol::Emit(Instr::Field),
            Symbol::FieldsOn,
        ])),
        Symbol::FieldsOn => lists::on(c, Symbol::Fields),
        Symbol::SomeFields => lists::behind(c, Sign::LeftParen, Symbol::Fields),
        Symbol::Ctors => item::ctors(c),
        Symbol::CtorsOn => lists::behind(c, Sign::Bar, Symbol::Ctors),
        Symbol::Params => item::params(c),
        Symbol::ParamsOn => lists::on(c, Symbol::Params),
        Symbol::SomeParams => item::some_params(c),
        Symbol::DataEnd(name) => item::data_end(c, name),
        Symbol::Items => item::items(c),
    }
}
