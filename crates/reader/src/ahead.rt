ghost use Rattle.std.specs.Prelude.{◌≡◌, ℕ, Bool, false, List, [], Option};
ghost use Rattle.language.specs.Base.{Lexeme, same};
ghost use Rattle.language.specs.Text.{peek};
ghost use Rattle.lexer.specs.Left.{Next};
ghost use Rattle.lexer.specs.Tokens.{spelled, drawn};
ghost use Rattle.lexer.specs.Asks.{sign_ahead, keyword_ahead, lower_ahead, upper_ahead};
ghost use Rattle.lexer.specs.declared.token.Token.{Token as TokenOf};
ghost use Rattle.lexer.proofs.Asks.{asks_sign, asks_keyword, some_sign, some_keyword};

use super::error::Expected;
use lexer::{Keyword, Name, Sign, Token};

// Questions to the token ahead of a cursor.

// What the grammar spells out: a sign or a keyword.
pub trait Asked: Copy {
    ghost lexeme: { Self → Lexeme };

    ghost ahead: { Option TokenOf → Self → Bool };

    // Whether it is this token.
    fn is_ahead(self, token: Option<Token>) -> bool
        ensures { result ≡ ahead token self };

    // What is said to be missing where it has to stand and doesn't.
    fn expected(self) -> Expected;

    // Where the token is that of the first lexeme, it is asked for exactly where the lexeme is spelled that way.
    ghost tells: { (text : List ℕ) (o : Option TokenOf) (ws : List Lexeme) → Next text o ws → (x : Self) → same (peek ws) (lexeme x) ≡ ahead o x };

    // It has a byte at least, so that the end of a text is none.
    ghost some_byte: { (x : Self) → same (lexeme x) [] ≡ false };
}

impl Asked for Sign {
    ghost lexeme = { drawn };

    ghost ahead = { sign_ahead };

    ghost tells = { asks_sign };

    ghost some_byte = { some_sign };

    fn is_ahead(self, token: Option<Token>) -> bool {
        token == Some(Token::Mark(self))
    }

    fn expected(self) -> Expected {
        Expected::Sign(self)
    }
}

impl Asked for Keyword {
    ghost lexeme = { spelled };

    ghost ahead = { keyword_ahead };

    ghost tells = { asks_keyword };

    ghost some_byte = { some_keyword };

    fn is_ahead(self, token: Option<Token>) -> bool {
        token == Some(Token::Reserved(self))
    }

    fn expected(self) -> Expected {
        Expected::Keyword(self)
    }
}

// Twice: what would be handed in is the case of Token, which is no value.
pub fn lower(token: Option<Token>) -> Option<Name>
    ensures { result ≡ lower_ahead token }
{
    match token? {
        Token::Lower(x) => Some(x),
        Token::Reserved(_) | Token::Mark(_) | Token::Upper(_) => None,
        Token::Number(_) | Token::BadNumber | Token::Other => None,
    }
}

// Twice: see lower.
pub fn upper(token: Option<Token>) -> Option<Name>
    ensures { result ≡ upper_ahead token }
{
    match token? {
        Token::Upper(x) => Some(x),
        Token::Reserved(_) | Token::Mark(_) | Token::Lower(_) => None,
        Token::Number(_) | Token::BadNumber | Token::Other => None,
    }
}
