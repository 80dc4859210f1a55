// Operators, and how tightly they bind.
use crate::tree::Operator;
use lexer::{Sign, Token};

// The loosest first.
#[derive(Clone, Copy, PartialEq, Eq, PartialOrd, Ord)]
pub enum Precedence {
    Comparison,
    Sum,
    Product,
}

pub fn binds(op: Operator) -> Precedence {
    match op {
        Operator::Equal | Operator::Less => Precedence::Comparison,
        Operator::Add | Operator::Sub => Precedence::Sum,
        Operator::Mul | Operator::Div | Operator::Rem => Precedence::Product,
    }
}

// The operator that a token is.
pub fn operator(token: Option<Token>) -> Option<Operator> {
    match token? {
        Token::Mark(Sign::Equal) => Some(Operator::Equal),
        Token::Mark(Sign::Less) => Some(Operator::Less),
        Token::Mark(Sign::Plus) => Some(Operator::Add),
        Token::Mark(Sign::Minus) => Some(Operator::Sub),
        Token::Mark(Sign::Star) => Some(Operator::Mul),
        Token::Mark(Sign::Slash) => Some(Operator::Div),
        Token::Mark(Sign::Percent) => Some(Operator::Rem),
        Token::Mark(_)
        | Token::Reserved(_)
        | Token::Lower(_)
        | Token::Upper(_)
        | Token::Number(_)
        | Token::BadNumber
        | Token::Other => None,
    }
}
