ghost use Rattle.std.specs.Prelude.{◌≡◌};
ghost use Rattle.reader.specs.Symbol.{step, s_compared, s_primary, s_args_on};
ghost use Rattle.reader.specs.Symbol.{step_more, step_loan, step_atom, step_make, step_use, step_prefixed};
ghost use Rattle.reader.specs.Steps.{Joined, operator_of, symbol_of};
ghost use Rattle.reader.specs.Tokens.{text_of, Reads, Does};
ghost use Rattle.lexer.specs.Spelling.{spelling};

use super::action::Action;
use super::cursor::Cursor;
use super::error::Expected;
use super::symbol::Symbol;
use code::{Instr, Operator};
use lexer::{Keyword, Name, Sign};

// The operator of the first of these signs that is next, if one of them is.
fn operator(c: &mut Cursor, signs: &[(Sign, Operator)]) -> Option<Operator>
    ensures { Reads c.old c.new (Joined signs.now result) }
{
    for &(sign, operator) in signs {
        if c.accept(sign) {
            return Some(operator);
        }
    }
    None
}

// The signs between two operands: of a comparison, a sum and a product.
const COMPARISONS: [(Sign, Operator); 2] = [
    (Sign::Equal, Operator::Equal),
    (Sign::Less, Operator::Less),
];

pub const SUMS: [(Sign, Operator); 2] = [(Sign::Plus, Operator::Add), (Sign::Minus, Operator::Sub)];

pub const PRODUCTS: [(Sign, Operator); 3] = [
    (Sign::Star, Operator::Mul),
    (Sign::Slash, Operator::Div),
    (Sign::Percent, Operator::Rem),
];

// Behind a sum: one comparison, or none.
pub fn compared(c: &mut Cursor) -> Result<Action, Expected>
    ensures { Does c.old c.new result (step s_compared) }
{
    match operator(c, &COMPARISONS) {
        Some(o) => Ok(Action::Push3([
            Symbol::Emit(Instr::Int),
            Symbol::Sum,
            Symbol::Emit(Instr::Op(o)),
        ])),
        None => Ok(Action::Push0),
    }
}

// Behind a part of a sum or a product: another one with one of these signs before it, or none.
pub fn more(
    c: &mut Cursor,
    signs: &[(Sign, Operator)],
    part: Symbol,
    again: Symbol,
) -> Result<Action, Expected>
    ensures { Does c.old c.new result (step_more (operator_of signs.now) (symbol_of (text_of c.old) part) (symbol_of (text_of c.old) again)) }
{
    match operator(c, signs) {
        Some(o) => Ok(Action::Push4([
            Symbol::Emit(Instr::Int),
            part,
            Symbol::Emit(Instr::Op(o)),
            again,
        ])),
        None => Ok(Action::Push0),
    }
}

// Behind &: a name that is lent, to be changed or only seen.
fn loan(c: &mut Cursor) -> Result<Action, Expected>
    ensures { Does c.old c.new result step_loan }
{
    if c.accept(Keyword::Mut) {
        let x = c.lower(Expected::Name)?;
        return Ok(Action::Emit(Instr::Lend(x)));
    }
    let x = c.lower(Expected::Name)?;
    Ok(Action::Emit(Instr::Share(x)))
}

// A constructor, with its arguments or with none.
fn made(c: &mut Cursor, ctor: Name) -> Result<Action, Expected>
    ensures { Does c.old c.new result (step_make (spelling (text_of c.old) ctor)) }
{
    if c.accept(Sign::LeftParen) {
        return Ok(Action::Push2([Symbol::Emit(Instr::Make(ctor)), Symbol::Args]));
    }
    Ok(Action::Push2([Symbol::Emit(Instr::Make(ctor)), Symbol::Emit(Instr::Apply)]))
}

// A variable, or a function with its arguments.
fn used(c: &mut Cursor, name: Name) -> Result<Action, Expected>
    ensures { Does c.old c.new result (step_use (spelling (text_of c.old) name)) }
{
    if !c.accept(Sign::LeftParen) {
        return Ok(Action::Emit(Instr::Var(name)));
    }
    if c.accept(Sign::RightParen) {
        return Ok(Action::Push2([Symbol::Emit(Instr::Call(name)), Symbol::Emit(Instr::Apply)]));
    }
    Ok(Action::Push2([Symbol::Emit(Instr::Call(name)), Symbol::Args]))
}

// A number, or what begins with a name.
fn atom(c: &mut Cursor) -> Result<Action, Expected>
    ensures { Does c.old c.new result step_atom }
{
    if let Some(n) = c.accept_number()? {
        return Ok(Action::Emit(Instr::Num(n)));
    }
    if let Some(ctor) = c.accept_upper() {
        return made(c, ctor);
    }
    let name = c.lower(Expected::Expression)?;
    used(c, name)
}

// What begins with *, & or box, or an atom.
fn prefixed(c: &mut Cursor) -> Result<Action, Expected>
    ensures { Does c.old c.new result step_prefixed }
{
    if c.accept(Sign::Star) {
        let x = c.lower(Expected::Name)?;
        return Ok(Action::Emit(Instr::Load(x)));
    }
    if c.accept(Sign::And) {
        return loan(c);
    }
    if c.accept(Keyword::Box) {
        return Ok(Action::Push2([Symbol::Primary, Symbol::Emit(Instr::Box)]));
    }
    atom(c)
}

// The smallest expressions.
pub fn primary(c: &mut Cursor) -> Result<Action, Expected>
    ensures { Does c.old c.new result (step s_primary) }
{
    if c.accept(Sign::LeftParen) {
        return Ok(Action::Push2([Symbol::Expr, Symbol::RightParen]));
    }
    if c.accept(Keyword::Get) {
        return Ok(Action::Emit(Instr::Get));
    }
    prefixed(c)
}

// Behind an argument: another one, or the end.
pub fn args_on(c: &mut Cursor) -> Result<Action, Expected>
    ensures { Does c.old c.new result (step s_args_on) }
{
    if c.accept(Sign::Comma) {
        return Ok(Action::Push1([Symbol::Args]));
    }
    c.expect(Sign::RightParen)?;
    Ok(Action::Emit(Instr::Apply))
}
