ghost use Rattle.std.specs.Prelude.{◌≡◌, ◌<◌, ◌≤◌, true, length, slice_index};
ghost use Rattle.language.specs.Text.{is_word_byte};
ghost use Rattle.lexer.specs.Places.{part};
ghost use Rattle.lexer.specs.Spelling.{lexeme_at};
ghost use Rattle.lexer.specs.Tokens.{Means, digit, large, small};

use crate::name::Name;
use crate::token::Token;
use crate::word::{keyword, number, sign};

// These say of a byte what the definitions call it.
fn is_digit(b: u8) -> bool
    ensures { result ≡ digit b }
{
    b.is_ascii_digit()
}

fn is_large(b: u8) -> bool
    ensures { result ≡ large b }
{
    b.is_ascii_uppercase()
}

fn is_small(b: u8) -> bool
    ensures { result ≡ small b }
{
    matches!(b, b'a'..=b'z' | b'_')
}

// The token that the lexeme from start up to end is.
#[tactic(auto, using(crate::proofs::Classes::lower_by, crate::proofs::Classes::stray_by, crate::proofs::Classes::small_word))]
pub fn classify(text: &[u8], start: usize, end: usize) -> Token
    requires within { (start < end) × (end ≤ length text.now) }
    requires run { is_word_byte (slice_index text.now start) ≡ true → lexeme_at text.now start ≡ part text.now start end }
    ensures { Means text.now result (part text.now start end) }
{
    let lexeme = &text[start..end];
    let b = text[start];
    if is_digit(b) {
        number(lexeme).map_or(Token::BadNumber, Token::Number)
    } else if is_large(b) {
        Token::Upper(Name(start))
    } else if is_small(b) {
        keyword(lexeme).map_or(Token::Lower(Name(start)), Token::Reserved)
    } else {
        sign(lexeme).map_or(Token::Other, Token::Mark)
    }
}
