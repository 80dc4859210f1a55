ghost use Rattle.std.specs.Prelude.{◌≡◌, ℕ, ◌+◌, ◌*◌, ◌<◌, ◌≤◌, ◌≢◌, length, slice_index};
ghost use Rattle.code.specs.Words.{with_slot};
ghost use Rattle.reader.specs.Stack.{slot_for, symbol_at};

use super::symbol::Symbol;
use code::{Record, Slot};

// A symbol lies in a slot, as an instruction does.
impl Record for Symbol {
    ghost width = { 3 };

    ghost kept = { symbol_at };

    #[tactic(auto, unfolding(crate::specs::Stack::symbol_at))]
    fn load(words: &[u64], number: usize) -> Symbol {
        Symbol::from(Slot::load(words, number))
    }

    #[tactic(auto, using(crate::proofs::OnStack::held_again), unfolding(crate::specs::Stack::symbol_at))]
    fn store(self, words: &mut [u64], number: usize)
        requires { (number + 1) * 3 ≤ length words.old }
        ensures this { symbol_at words.new number ≡ self }
        ensures others { (k : ℕ) → (k ≢ number) → symbol_at words.new k ≡ symbol_at words.old k }
        ensures value { words.new ≡ with_slot words.old number (slot_for self) }
        ensures before { (j : ℕ) → j < 3 * number → slice_index words.new j ≡ slice_index words.old j }
    {
        Slot::from(self).store(words, number);
    }
}
