ghost use Rattle.std.specs.Prelude.{◌≡◌, ℕ, ◌+◌, ◌*◌, ◌<◌, ◌≤◌, ◌≢◌, length, slice_index};
ghost use Rattle.code.specs.Slots.{slot};
ghost use Rattle.code.specs.Words.{slot_in, with_slot};

use crate::record::Record;

// The three words of an instruction: an opcode and two operands. Opcodes below 22 have no operand, those from 22 to 37 one name.
// They are numbers for kinds, since slots lie in lent words.
#[derive(Clone, Copy)]
pub struct Slot {
    pub op: u64,
    pub first: u64,
    pub second: u64,
}

impl Slot {
    // An opcode with no operand.
    pub fn plain(op: u64) -> Slot
        ensures { result ≡ slot op 0 0 }
    {
        Slot {
            op,
            first: 0,
            second: 0,
        }
    }
}

impl Record for Slot {
    ghost width = { 3 };

    ghost kept = { slot_in };

    fn load(words: &[u64], number: usize) -> Slot {
        let at = 3 * number;
        Slot {
            op: words[at],
            first: words[at + 1],
            second: words[at + 2],
        }
    }

    fn store(self, words: &mut [u64], number: usize)
        requires { (number + 1) * 3 ≤ length words.old }
        ensures this { slot_in words.new number ≡ self }
        ensures others { (k : ℕ) → (k ≢ number) → slot_in words.new k ≡ slot_in words.old k }
        ensures value { words.new ≡ with_slot words.old number self }
        ensures before { (j : ℕ) → j < 3 * number → slice_index words.new j ≡ slice_index words.old j }
        ensures behind { (j : ℕ) → 3 * number + 2 < j → slice_index words.new j ≡ slice_index words.old j }
    {
        let at = 3 * number;
        words[at] = self.op;
        words[at + 1] = self.first;
        words[at + 2] = self.second;
    }
}
