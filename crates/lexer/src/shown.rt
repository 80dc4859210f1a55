ghost use Rattle.std.specs.Prelude.{◌≡◌};
ghost use Rattle.lexer.specs.Tokens.{spelled, drawn};

use crate::token::{Keyword, Sign};
use std::fmt;

impl Keyword {
    // How a program spells it.
    pub(crate) fn word(self) -> &'static str
        ensures { result.now ≡ spelled self }
    {
        match self {
            Keyword::Data => "data",
            Keyword::Drop => "drop",
            Keyword::By => "by",
            Keyword::Fn => "fn",
            Keyword::Let => "let",
            Keyword::Put => "put",
            Keyword::If => "if",
            Keyword::Else => "else",
            Keyword::While => "while",
            Keyword::Take => "take",
            Keyword::View => "view",
            Keyword::Edit => "edit",
            Keyword::Open => "open",
            Keyword::Inside => "inside",
            Keyword::Give => "give",
            Keyword::Box => "box",
            Keyword::Ref => "ref",
            Keyword::Mut => "mut",
            Keyword::Int => "int",
            Keyword::Get => "get",
        }
    }
}

impl fmt::Display for Keyword {
    fn fmt<W: fmt::Write>(&self, f: &mut fmt::Formatter<W>) -> fmt::Result {
        f.write_str(self.word())
    }
}

impl Sign {
    // How a program writes it.
    pub(crate) fn text(self) -> &'static str
        ensures { result.now ≡ drawn self }
    {
        match self {
            Sign::LeftParen => "(",
            Sign::RightParen => ")",
            Sign::LeftBrace => "{",
            Sign::RightBrace => "}",
            Sign::Comma => ",",
            Sign::Semicolon => ";",
            Sign::Colon => ":",
            Sign::Bar => "|",
            Sign::Gets => "=",
            Sign::And => "&",
            Sign::Star => "*",
            Sign::Equal => "==",
            Sign::Less => "<",
            Sign::Plus => "+",
            Sign::Minus => "-",
            Sign::Slash => "/",
            Sign::Percent => "%",
        }
    }
}

impl fmt::Display for Sign {
    fn fmt<W: fmt::Write>(&self, f: &mut fmt::Formatter<W>) -> fmt::Result {
        f.write_str(self.text())
    }
}
