ghost use Rattle.std.specs.Prelude.{◌≡◌, ℕ, ◌+◌, ◌≤◌, true, false, length, MatchResult};
ghost use Rattle.lexer.specs.Spelling.{lexeme_at};
ghost use Rattle.code.specs.Means.{means};
ghost use Rattle.names.specs.Table.{Sound, Has, IsFull, used};
ghost use Rattle.names.specs.Canonical.{first_named, second_named, Uses};

use crate::full::Full;
use crate::interner::Interner;
use code::{Instr, Slot};
use lexer::Name;

// By opcode: a match over instructions would have 44 arms, each of which says one of two things.
fn is_first_named(op: u64) -> bool
    ensures { result ≡ first_named op }
{
    matches!(op, 22..=37 | 41..=43)
}

fn is_second_named(op: u64) -> bool
    ensures { result ≡ second_named op }
{
    matches!(op, 40..=43)
}

impl Interner<'_> {
    // An operand's new word: the place in the table for a name, and the same word for another operand.
    // What stays is told here one by one, as in intern and rename: a caller cites each by its name.
    fn operand(&mut self, named: bool, word: u64) -> Result<u64, Full>
        ensures text { self.new.text.now ≡ self.old.text.now }
        ensures same_reference { self.new.table.ghost_name ≡ self.old.table.ghost_name }
        ensures length { length self.new.table.now ≡ length self.old.table.now }
        ensures grows { (p : ℕ) → Has self.old.table.now p → Has self.new.table.now p }
        ensures counts { used self.new.table.now ≤ used self.old.table.now + 1 }
        ensures gives { MatchResult result (λ v. (lexeme_at self.old.text.now v ≡ lexeme_at self.old.text.now word) × (named ≡ false → v ≡ word) × (named ≡ true → Has self.new.table.now v)) (λ _. IsFull self.old.table.now) }
    {
        if !named {
            return Ok(word);
        }
        Ok(self.intern(Name(word as usize))?.0 as u64)
    }

    // The instruction with the names of the table in place of its own.
    #[tactic(auto, using(crate::proofs::Shortest::sound_again))]
    pub fn rename(&mut self, instr: Instr) -> Result<Instr, Full>
        ensures text { self.new.text.now ≡ self.old.text.now }
        ensures sound { Sound self.new.text.now self.new.table.now }
        ensures same_reference { self.new.table.ghost_name ≡ self.old.table.ghost_name }
        ensures length { length self.new.table.now ≡ length self.old.table.now }
        ensures grows { (p : ℕ) → Has self.old.table.now p → Has self.new.table.now p }
        ensures counts { used self.new.table.now ≤ used self.old.table.now + 2 }
        ensures gives { MatchResult result (λ j. (means self.old.text.now j ≡ means self.old.text.now instr) × ((x : ℕ) → Uses j x → Has self.new.table.now x)) (λ _. length self.old.table.now ≤ used self.old.table.now + 1) }
    {
        let old = Slot::from(instr);
        let first = self.operand(is_first_named(old.op), old.first)?;
        let second = self.operand(is_second_named(old.op), old.second)?;
        let slot = Slot {
            op: old.op,
            first,
            second,
        };
        Ok(Instr::try_from(slot).unwrap())
    }
}
