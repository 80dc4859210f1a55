ghost use Rattle.std.specs.Prelude.{◌≡◌};
ghost use Rattle.language.specs.Base.{same};
ghost use Rattle.language.specs.Text.{peek, skip_one, is_lower, is_upper, tokenize, idle};
ghost use Rattle.lexer.specs.Left.{Next};
ghost use Rattle.reader.specs.Steps.{Told, Named, Perhaps, Accepted, Past, Counted, Stands, none_left};
ghost use Rattle.reader.specs.Tokens.{text_of, tokens, Reads};

use super::ahead::{self, Asked};
use super::error::{Expected, Misread};
use lexer::{Lexer, Name, Token};

// A text, and how far it has been read. What accepts a token goes past it if it is ahead; what expects one refuses any other.
#[derive(Drop)]
pub struct Cursor<'a> {
    lexer: Lexer<'a>,
}

impl<'a> Cursor<'a> {
    #[tactic(auto, unfolding(crate::specs::Tokens::tokens))]
    pub fn new(text: &'a [u8]) -> Self
        ensures text { text_of result ≡ text.now }
        ensures all { tokens result ≡ tokenize idle text.now }
    {
        Cursor {
            lexer: Lexer::new(text),
        }
    }

    #[tactic(auto, unfolding(crate::specs::Tokens::tokens))]
    fn token(&self) -> Option<Token>
        ensures { Next (text_of self.now) result (tokens self.now) }
    {
        self.lexer.peek()
    }

    #[tactic(auto, unfolding(crate::specs::Tokens::tokens))]
    fn advance(&mut self)
        ensures { Reads self.old self.new (λ ts left. left ≡ skip_one ts) }
    {
        let _ = self.lexer.next();
    }

    // The token ahead is none that may stand there.
    #[tactic(auto, unfolding(crate::specs::Tokens::tokens))]
    pub fn misread(&self, expected: Expected) -> Misread
        ensures { Stands (text_of self.now) result (tokens self.now) }
    {
        Misread {
            place: self.lexer.place(),
            found: self.lexer.peek(),
            expected,
        }
    }

    pub fn at_end(&self) -> bool
        ensures { result ≡ none_left (tokens self.now) }
    {
        self.token().is_none()
    }

    pub fn at<T: Asked>(&self, asked: T) -> bool
        ensures { result ≡ same (peek (tokens self.now)) (T.lexeme asked) }
    {
        asked.is_ahead(self.token())
    }

    // Twice: what would be handed in is the case of Token, which is no value.
    #[tactic(auto, using(lexer::proofs::Asks::asks_lower))]
    fn lower_ahead(&self) -> Option<Name>
        ensures { Told (text_of self.now) is_lower result (peek (tokens self.now)) }
    {
        ahead::lower(self.token())
    }

    // Twice: see lower_ahead.
    #[tactic(auto, using(lexer::proofs::Asks::asks_upper))]
    fn upper_ahead(&self) -> Option<Name>
        ensures { Told (text_of self.now) is_upper result (peek (tokens self.now)) }
    {
        ahead::upper(self.token())
    }

    pub fn accept<T: Asked>(&mut self, asked: T) -> bool
        ensures { Reads self.old self.new (Accepted (T.lexeme asked) result) }
    {
        let is_next = self.at(asked);
        if is_next {
            self.advance();
        }
        is_next
    }

    pub fn accept_upper(&mut self) -> Option<Name>
        ensures { Reads self.old self.new (Perhaps (text_of self.old) is_upper result) }
    {
        let name = self.upper_ahead()?;
        self.advance();
        Some(name)
    }

    // A number, if one is ahead; one with no value below 2^64 is refused.
    pub fn accept_number(&mut self) -> Result<Option<u64>, Expected>
        ensures { Reads self.old self.new (Counted result) }
    {
        match self.token() {
            Some(Token::Number(n)) => {
                self.advance();
                Ok(Some(n))
            }
            Some(Token::BadNumber) => Err(Expected::SmallNumber),
            Some(
                Token::Reserved(_)
                | Token::Mark(_)
                | Token::Lower(_)
                | Token::Upper(_)
                | Token::Other,
            )
            | None => Ok(None),
        }
    }

    pub fn expect<T: Asked>(&mut self, asked: T) -> Result<(), Expected>
        ensures { Reads self.old self.new (Past (T.lexeme asked) result) }
    {
        if self.accept(asked) {
            Ok(())
        } else {
            Err(asked.expected())
        }
    }

    // A name with a small letter, where the grammar has that or more.
    pub fn lower(&mut self, expected: Expected) -> Result<Name, Expected>
        ensures { Reads self.old self.new (Named (text_of self.old) is_lower result) }
    {
        let name = self.lower_ahead().ok_or(expected)?;
        self.advance();
        Ok(name)
    }

    pub fn upper(&mut self) -> Result<Name, Expected>
        ensures { Reads self.old self.new (Named (text_of self.old) is_upper result) }
    {
        self.accept_upper().ok_or(Expected::Constructor)
    }
}
