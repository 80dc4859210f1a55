ghost use Rattle.std.specs.Prelude.{◌≡◌, ◌≤◌, length};
ghost use Rattle.language.specs.Text.{idle, peek, skip_one, tokenize};
ghost use Rattle.lexer.specs.Places.{from_place};
ghost use Rattle.lexer.specs.Left.{left, text_of, Next, Begins};

use super::Lexer;
use crate::classify::classify;
use crate::scan::{lexeme_end, skip_blanks};
use crate::token::Token;

impl<'a> Lexer<'a> {
    // Before the first token of a text.
    pub fn new(text: &'a [u8]) -> Self
        ensures text { text_of result ≡ text.now }
        ensures left { left result ≡ tokenize idle text.now }
    {
        Lexer::at(text, 0)
    }

    // Before the first token from a place on.
    #[tactic(auto, using(crate::proofs::Cut::none_left, crate::proofs::Tell::told_some))]
    fn at(text: &'a [u8], place: usize) -> Self
        requires { place ≤ length text.now }
        ensures text { text_of result ≡ text.now }
        ensures left { left result ≡ from_place text.now place }
    {
        let start = skip_blanks(text, place);
        if start >= text.len() {
            return Lexer {
                text,
                start,
                end: start,
                token: None,
            };
        }
        let end = lexeme_end(text, start);
        let token = Some(classify(text, start, end));
        Lexer {
            text,
            start,
            end,
            token,
        }
    }

    // The token ahead.
    #[tactic(auto, using(crate::proofs::Tell::ahead))]
    pub fn peek(&self) -> Option<Token>
        ensures { Next (text_of self.now) result (left self.now) }
    {
        self.token
    }

    // The place in the text where the token ahead starts.
    pub fn place(&self) -> usize
        ensures { Begins (text_of self.now) result (left self.now) }
    {
        self.start
    }

    // The bytes of the token ahead; none at the end of the text.
    #[tactic(auto, using(crate::proofs::Tell::lexeme_ahead))]
    pub fn lexeme(&self) -> &'a [u8]
        ensures { result.now ≡ peek (left self.now) }
    {
        &self.text[self.start..self.end]
    }

    // The token ahead, which is then behind the lexer.
    #[tactic(auto, using(crate::proofs::Tell::behind))]
    pub fn next(&mut self) -> Option<Token>
        ensures next { Next (text_of self.old) result (left self.old) }
        ensures left { left self.new ≡ skip_one (left self.old) }
        ensures text { text_of self.new ≡ text_of self.old }
    {
        let token = self.peek();
        *self = Lexer::at(self.text, self.end);
        token
    }
}
