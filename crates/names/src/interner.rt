ghost use Rattle.std.specs.Prelude.{◌≡◌, ℕ, ◌+◌, ◌<◌, ◌≤◌, length, MatchOption, MatchResult};
ghost use Rattle.lexer.specs.Spelling.{spelling};
ghost use Rattle.names.specs.Passes.{PassedIn, StoppedIn};
ghost use Rattle.names.specs.Table.{Sound, Has, IsFull, Stopped, used};

use crate::full::Full;
use crate::hash::hash_of;
use crate::spot::Spot;
use lexer::{Name, same_name};

// Names by number over a text: each spelling has one place in a table. The table lies in lent words, since nothing here allocates;
// a bucket holds a place and one more, and 0 where it is free.
#[derive(Drop)]
pub struct Interner<'a> {
    text: &'a [u8],
    table: &'a mut [u64],
    // Only that it is so, since a ghost field can't hold the counts of steps. What each public method ensures has them too.
    ghost sound: { ∥ Sound text.now table.now ∥₁ },
}

impl<'a> Interner<'a> {
    // Over a table that is cleared first.
    pub fn new(text: &'a [u8], table: &'a mut [u64]) -> Interner<'a>
        ensures text { result.text.now ≡ text.now }
        ensures sound { Sound text.now result.table.now }
        ensures same_reference { result.table.ghost_name ≡ table.entry.ghost_name }
        ensures length { length result.table.now ≡ length table.old }
        ensures empty { used result.table.now ≡ 0 }
    {
        table.fill(0);
        Interner::over(text, table)
    }

    // Over a table with names of the text in it already.
    #[tactic(auto, using(crate::proofs::Shortest::sound_again))]
    pub fn over(text: &'a [u8], table: &'a mut [u64]) -> Interner<'a>
        requires { ∥ Sound text.now table.old ∥₁ }
        ensures text { result.text.now ≡ text.now }
        ensures sound { Sound text.now result.table.now }
        ensures same_reference { result.table.ghost_name ≡ table.entry.ghost_name }
        ensures table { result.table.now ≡ table.old }
    {
        Interner { text, table }
    }

    // Goes over some buckets, up to one of a name's spelling or a free one. None: all are taken, by other names.
    fn search_in(&self, name: Name, from: usize, to: usize) -> Option<Spot>
        requires { to ≤ length self.now.table.now }
        ensures { MatchOption result (PassedIn self.now.text.now self.now.table.now (spelling self.now.text.now name) from to) (StoppedIn self.now.text.now self.now.table.now name from to) }
    {
        // By number: both ranges are of one table, and a free bucket is told by its place in it.
        for i in from..to {
            let Some(place) = self.table[i].checked_sub(1) else {
                return Some(Spot::Free(i));
            };
            let other = Name(place as usize);
            if same_name(self.text, other, name) {
                return Some(Spot::Taken(other));
            }
        }
        None
    }

    // Goes over the buckets from a name's own on, and round to it. None: all are taken, by other names.
    fn search(&self, name: Name) -> Option<Spot>
        ensures { MatchOption result (IsFull self.now.table.now) (Stopped self.now.text.now self.now.table.now name) }
    {
        let buckets = self.table.len();
        // Before the hash, which goes over the whole name: where there is no bucket, no name is looked at.
        if buckets == 0 {
            return None;
        }
        let start = (hash_of(self.text, name) % buckets as u64) as usize;
        // No or_else: of what a closure over self gives, the proof knows nothing.
        match self.search_in(name, start, buckets) {
            Some(spot) => Some(spot),
            None => self.search_in(name, 0, start),
        }
    }

    // The name in the table that is spelled like this one, which is put into it if there is none.
    #[tactic(auto, using(crate::proofs::Shortest::sound_again))]
    pub fn intern(&mut self, name: Name) -> Result<Name, Full>
        ensures text { self.new.text.now ≡ self.old.text.now }
        ensures sound { Sound self.new.text.now self.new.table.now }
        ensures same_reference { self.new.table.ghost_name ≡ self.old.table.ghost_name }
        ensures length { length self.new.table.now ≡ length self.old.table.now }
        ensures grows { (p : ℕ) → Has self.old.table.now p → Has self.new.table.now p }
        ensures counts { used self.new.table.now ≤ used self.old.table.now + 1 }
        ensures gives { MatchResult result (λ x. Has self.new.table.now x.0 × (spelling self.old.text.now x ≡ spelling self.old.text.now name)) (λ _. IsFull self.old.table.now) }
    {
        let place = name.0.min(self.text.len());
        match self.search(Name(place)).ok_or(Full)? {
            Spot::Taken(other) => Ok(other),
            Spot::Free(i) => {
                self.table[i] = place as u64 + 1;
                Ok(Name(place))
            }
        }
    }
}
