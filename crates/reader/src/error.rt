ghost use Rattle.std.specs.Prelude.{◌≡◌};
ghost use Rattle.reader.specs.declared.error.ReadError.TheVariants.{NotText};

use lexer::{Keyword, Sign, Token};

// What the grammar has at a place. SmallNumber is a number below 2^64.
#[derive(Clone, Copy)]
pub enum Expected {
    Keyword(Keyword),
    Sign(Sign),
    Name,
    Constructor,
    Expression,
    SmallNumber,
    Statement,
    Type,
    Item,
}

// A text that is no program: where, what stands there, and what should.
#[derive(Clone, Copy)]
pub struct Misread {
    pub place: usize,
    pub found: Option<Token>,
    pub expected: Expected,
}

// Why a text was not read: fewer words were lent than any text of its length may need, or it is no program.
#[derive(Clone, Copy)]
pub enum ReadError {
    Little,
    NotText(Misread),
}

impl From<Misread> for ReadError {
    ghost from_gives = { λ e r. r ≡ NotText e };

    fn from(e: Misread) -> Self {
        ReadError::NotText(e)
    }
}
