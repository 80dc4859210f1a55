ghost use Rattle.std.specs.Prelude.{◌≡◌, ℕ, ◌+◌, ◌*◌, ◌<◌, ◌≤◌, length, Some, slice_index};
ghost use Rattle.code.specs.Slots.{slot_of};
ghost use Rattle.code.specs.Words.{instr_at, with_slot};

use crate::instr::Instr;
use crate::record::Record;
use crate::slot::Slot;

// The instruction in the k-th slot of the words, if it holds one.
pub fn decode(words: &[u64], k: usize) -> Option<Instr>
    requires { 3 * k + 2 < length words.now }
    ensures { result ≡ instr_at words.now k }
{
    Instr::try_from(Slot::load(words, k)).ok()
}

// Puts an instruction into the k-th slot of the words.
pub fn encode(instr: Instr, words: &mut [u64], k: usize)
    requires { 3 * k + 2 < length words.old }
    ensures value { words.new ≡ with_slot words.old k (slot_of instr) }
    ensures holds { instr_at words.new k ≡ Some instr }
    ensures kept { (((j : ℕ) → j < 3 * k → slice_index words.new j ≡ slice_index words.old j)) × (((j : ℕ) → 3 * k + 2 < j → slice_index words.new j ≡ slice_index words.old j)) }
{
    Slot::from(instr).store(words, k);
}
