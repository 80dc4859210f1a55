ghost use Rattle.std.specs.Prelude.{◌≡◌, ◌+◌, ◌*◌, ◌≤◌, length};
ghost use Rattle.reader.specs.Machine.{Reading};

use super::cursor::Cursor;
use super::error::Misread;
use super::progress::Progress;
use super::symbol::Symbol;
use super::table::step;

// Reads a text: the code lies in the slots below base, the stack in those from base on.
pub fn run(text: &[u8], words: &mut [u64], base: usize) -> Result<usize, Misread>
    requires base { base ≡ 3 * length text.now + 1 }
    requires room { 3 * (base + 10 * length text.now + 9) ≤ length words.old }
    ensures { Reading text.now words.new result }
{
    let mut cursor = Cursor::new(text);
    let mut at = Progress::new(base);
    at.pile(words, &[Symbol::Items]);
    while let Some(symbol) = at.pop(words) {
        // Apart by hand: tried with map_err and ?, the proof learnt nothing of the refusal that the closure makes from the cursor, not even
        // from a clause at it.
        match step(&mut cursor, symbol) {
            Ok(action) => at.perform(words, action),
            Err(expected) => return Err(cursor.misread(expected)),
        }
    }
    Ok(at.made)
}
