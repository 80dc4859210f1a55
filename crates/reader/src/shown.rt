use super::error::{Expected, Misread};
use lexer::Token;
use std::fmt;

// What went wrong in reading, for people.

// What stands at a place of the text.
#[derive(Clone, Copy)]
struct Found(Option<Token>);

impl fmt::Display for Found {
    fn fmt<W: fmt::Write>(&self, f: &mut fmt::Formatter<W>) -> fmt::Result {
        match self.0 {
            Some(Token::Reserved(k)) => write!(f, "{k}"),
            Some(Token::Mark(s)) => write!(f, "{s}"),
            Some(Token::Lower(_)) => f.write_str("a name"),
            Some(Token::Upper(_)) => f.write_str("a constructor"),
            Some(Token::Number(n)) => write!(f, "{n}"),
            Some(Token::BadNumber) => {
                f.write_str("a number that is too large or has letters in it")
            }
            Some(Token::Other) => f.write_str("a byte that stands for nothing"),
            None => f.write_str("the end of the text"),
        }
    }
}

impl fmt::Display for Expected {
    fn fmt<W: fmt::Write>(&self, f: &mut fmt::Formatter<W>) -> fmt::Result {
        match *self {
            Expected::Keyword(k) => write!(f, "{k}"),
            Expected::Sign(s) => write!(f, "{s}"),
            Expected::Name => f.write_str("a name"),
            Expected::Constructor => f.write_str("a constructor"),
            Expected::Expression => f.write_str("an expression"),
            Expected::SmallNumber => f.write_str("a number below 2^64"),
            Expected::Statement => f.write_str("a statement"),
            Expected::Type => f.write_str("a type"),
            Expected::Item => f.write_str("data or fn"),
        }
    }
}

impl fmt::Display for Misread {
    fn fmt<W: fmt::Write>(&self, f: &mut fmt::Formatter<W>) -> fmt::Result {
        let expected = self.expected;
        let found = Found(self.found);
        write!(f, "expected {expected}, found {found}")
    }
}
