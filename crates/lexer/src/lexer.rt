ghost use Rattle.std.specs.Prelude.{◌≡◌, ℕ, ◌-◌, ◌<◌, ◌≤◌, true, length};
ghost use Rattle.lexer.specs.Places.{from_place};
ghost use Rattle.lexer.specs.Ahead.{cut, told};

use crate::token::Token;

mod methods;

// A text, and how far it has been read: the token ahead, and the places where it starts and ends. At the end of the text there is none.
#[derive(Clone, Copy)]
pub struct Lexer<'a> {
    text: &'a [u8],
    start: usize,
    end: usize,
    token: Option<Token>,
    ghost within: { (start ≤ end) × (end ≤ length text.now) },
    ghost cuts: { from_place text.now start ≡ cut text.now start end token },
    ghost tells: { told text.now start end token ≡ true },
}
