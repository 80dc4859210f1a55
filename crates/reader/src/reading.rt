ghost use Rattle.std.specs.Prelude.{◌≡◌, ◌+◌, ◌*◌, ◌^◌, ◌<◌, nat_le};
ghost use Rattle.std.specs.Option.{SomeIff};
ghost use Rattle.reader.specs.Answer.{Answer};

use super::error::ReadError;
use super::machine::run;

// The words that are lent, for a text of n bytes: FIXED_WORDS and WORDS_PER_BYTE * n. In slots of three words, the code has the
// first CODE_SLOTS * n + 1, and the stack those behind them, of which it needs 10 * n + 9 at most.
const FIXED_WORDS: usize = 65_536;

const WORDS_PER_BYTE: usize = 64;

const CODE_SLOTS: usize = 3;

// A text that was read: its code lies in so many slots of the words, from the first on.
#[derive(Clone, Copy)]
pub struct Code {
    pub count: usize,
}

// How many words are enough for any text of so many bytes, if there is such a number.
pub fn least_words(bytes: usize) -> Option<usize>
    ensures { SomeIff result (65536 + 64 * bytes < 2 ^ 64) (65536 + 64 * bytes) }
{
    WORDS_PER_BYTE.checked_mul(bytes)?.checked_add(FIXED_WORDS)
}

// Whether so many words are enough for a text of so many bytes.
fn is_enough(words: usize, bytes: usize) -> bool
    ensures { result ≡ nat_le (65536 + 64 * bytes) words }
{
    least_words(bytes).is_some_and(|least| least <= words)
}

// Reads a text into code, in the words that are lent.
pub fn read(text: &[u8], work: &mut [u64]) -> Result<Code, ReadError>
    ensures { Answer text.now work.new result }
{
    if !is_enough(work.len(), text.len()) {
        return Err(ReadError::Little);
    }
    let count = run(text, work, CODE_SLOTS * text.len() + 1)?;
    Ok(Code { count })
}
