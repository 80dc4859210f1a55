ghost use Rattle.std.specs.Prelude.{◌≡◌, ℕ, ◌+◌, ◌*◌, ◌<◌, ◌≤◌, length, slice_index, IsOk, OnOk};
ghost use Rattle.code.specs.Words.{code_in, Filled};
ghost use Rattle.names.specs.Canonical.{Canonical};

use crate::full::Full;
use crate::interner::Interner;
use code::{decode, encode};

// Gives the names in the first n slots one place for each spelling. An error: the table is too small, which one of two words for each
// slot never is. The words lent may be more than the n slots.
pub fn canonical(text: &[u8], words: &mut [u64], n: usize, table: &mut [u64]) -> Result<(), Full>
    requires { 3 * n ≤ length words.old }
    ensures code { code_in text.now words.new n ≡ code_in text.now words.old n }
    ensures filled { Filled words.old n → Filled words.new n }
    ensures kept { (j : ℕ) → 3 * n ≤ j → slice_index words.new j ≡ slice_index words.old j }
    ensures enough { 2 * n ≤ length table.old → IsOk result }
    ensures names { OnOk result (Canonical text.now words.new n) }
{
    let mut interner = Interner::new(text, table);
    // By number: the contract says of each slot by its number what it holds, and of the words behind the n-th that they stay.
    for k in 0..n {
        if let Some(instr) = decode(words, k) {
            let named = interner.rename(instr)?;
            encode(named, words, k);
        }
    }
    Ok(())
}
