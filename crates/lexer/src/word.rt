ghost use Rattle.std.specs.Prelude.{◌≡◌, true, false, [], ◌∷◌, MatchOption};
ghost use Rattle.std.proofs.Math.Option.{some, none};
ghost use Rattle.language.specs.Base.{same, is_in};
ghost use Rattle.language.specs.Text.{value_of, reserved};
ghost use Rattle.lexer.specs.Tokens.{spelled, drawn, signs};

use crate::token::{Keyword, Sign};

// What the digits stand for, if that is below 2^64.
#[tactic(auto, using(crate::proofs::Numbers::digit_more, crate::proofs::Numbers::value_big))]
pub fn number(lexeme: &[u8]) -> Option<u64>
    ensures { MatchOption result (value_of lexeme.now ≡ none) (λ n. value_of lexeme.now ≡ some n) }
{
    let mut n: u64 = 0;
    // A `for` with `?`: try_fold reads harder.
    for b in lexeme {
        if !b.is_ascii_digit() {
            return None;
        }
        let d = u64::from(*b - b'0');
        n = n.checked_mul(10)?.checked_add(d)?;
    }
    Some(n)
}

// That reserved word, if a lexeme is it. Inlined, so that its spelling is a constant of the code.
#[inline(always)]
#[tactic(auto, using(crate::proofs::Words::compared, crate::proofs::Same::same_by_eq))]
fn exactly(lexeme: &[u8], word: Keyword) -> Option<Keyword>
    ensures { MatchOption result (same lexeme.now (spelled word) ≡ false) (λ k. lexeme.now ≡ spelled k) }
{
    (lexeme == word.word().as_bytes()).then_some(word)
}

// The reserved word that a lexeme is, among those that begin as it does: three at most, and no search over all of them.
#[tactic(auto, using(crate::proofs::Words::one, crate::proofs::Words::two, crate::proofs::Words::three))]
pub fn keyword(lexeme: &[u8]) -> Option<Keyword>
    ensures { MatchOption result (is_in lexeme.now reserved ≡ false) (λ k. lexeme.now ≡ spelled k) }
{
    match lexeme.first()? {
        b'd' => exactly(lexeme, Keyword::Data).or(exactly(lexeme, Keyword::Drop)),
        b'b' => exactly(lexeme, Keyword::By).or(exactly(lexeme, Keyword::Box)),
        b'f' => exactly(lexeme, Keyword::Fn),
        b'l' => exactly(lexeme, Keyword::Let),
        b'p' => exactly(lexeme, Keyword::Put),
        b'i' => exactly(lexeme, Keyword::If).or(exactly(lexeme, Keyword::Inside).or(exactly(
            lexeme,
            Keyword::Int,
        ))),
        b'e' => exactly(lexeme, Keyword::Else).or(exactly(lexeme, Keyword::Edit)),
        b'w' => exactly(lexeme, Keyword::While),
        b't' => exactly(lexeme, Keyword::Take),
        b'v' => exactly(lexeme, Keyword::View),
        b'o' => exactly(lexeme, Keyword::Open),
        b'g' => exactly(lexeme, Keyword::Give).or(exactly(lexeme, Keyword::Get)),
        b'r' => exactly(lexeme, Keyword::Ref),
        b'm' => exactly(lexeme, Keyword::Mut),
        _ => None,
    }
}

// The sign that a byte is. A match and no search over the signs: it is one jump.
fn sign_of(b: u8) -> Option<Sign>
    ensures { MatchOption result (is_in (b ∷ []) signs ≡ false) (λ s. b ∷ [] ≡ drawn s) }
{
    match b {
        b'(' => Some(Sign::LeftParen),
        b')' => Some(Sign::RightParen),
        b'{' => Some(Sign::LeftBrace),
        b'}' => Some(Sign::RightBrace),
        b',' => Some(Sign::Comma),
        b';' => Some(Sign::Semicolon),
        b':' => Some(Sign::Colon),
        b'|' => Some(Sign::Bar),
        b'=' => Some(Sign::Gets),
        b'&' => Some(Sign::And),
        b'*' => Some(Sign::Star),
        b'<' => Some(Sign::Less),
        b'+' => Some(Sign::Plus),
        b'-' => Some(Sign::Minus),
        b'/' => Some(Sign::Slash),
        b'%' => Some(Sign::Percent),
        _ => None,
    }
}

// The sign that a lexeme is.
#[tactic(auto, using(crate::proofs::Signs::no_sign, crate::proofs::Signs::same_long))]
pub fn sign(lexeme: &[u8]) -> Option<Sign>
    ensures { MatchOption result (is_in lexeme.now signs ≡ false) (λ s. lexeme.now ≡ drawn s) }
{
    match lexeme {
        [b] => sign_of(*b),
        b"==" => Some(Sign::Equal),
        _ => None,
    }
}
