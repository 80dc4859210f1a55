ghost use Rattle.std.specs.Prelude.{◌≡◌, ◌+◌, ◌^◌, ◌<◌, length};
ghost use Rattle.language.specs.Text.{idle, tokenize};
ghost use Rattle.lexes.specs.Counts.{total};

use lexer::{Lexer, Token};
use std::fmt;

// How many tokens of each kind there are.
#[derive(Clone, Copy, Default)]
pub struct Tally {
    pub reserved: usize,
    pub signs: usize,
    pub lower: usize,
    pub upper: usize,
    pub numbers: usize,
    pub other: usize,
}

impl Tally {
    // One more.
    fn count(&mut self, token: Token)
        requires { total self.old + 1 < 2 ^ 64 }
        ensures { total self.new ≡ total self.old + 1 }
    {
        match token {
            Token::Reserved(_) => self.reserved += 1,
            Token::Mark(_) => self.signs += 1,
            Token::Lower(_) => self.lower += 1,
            Token::Upper(_) => self.upper += 1,
            Token::Number(_) => self.numbers += 1,
            Token::BadNumber | Token::Other => self.other += 1,
        }
    }
}

impl fmt::Display for Tally {
    fn fmt<W: fmt::Write>(&self, f: &mut fmt::Formatter<W>) -> fmt::Result {
        let Tally {
            reserved,
            signs,
            lower,
            upper,
            numbers,
            other,
        } = *self;
        write!(
            f,
            "{reserved} reserved, {signs} signs, {lower} lower, {upper} upper, {numbers} numbers, {other} other"
        )
    }
}

// The tokens of a text.
pub fn tally_of(text: &[u8]) -> Tally
    ensures { total result ≡ length (tokenize idle text.now) }
{
    let mut tally = Tally::default();
    let mut lexer = Lexer::new(text);
    // The lexer's `next` has a contract of its own, and is no Iterator's.
    while let Some(token) = lexer.next() {
        tally.count(token);
    }
    tally
}
