ghost use Rattle.std.specs.Prelude.{◌≡◌, ℕ, ◌+◌, ◌<◌, ◌≤◌, List, ◌∷◌, length, ◌≢◌, slice_index};
ghost use Rattle.memory.specs.Place.{Place, place};
ghost use Rattle.memory.specs.Pooled.{Pooled};
ghost use Rattle.memory.specs.Peaks.{PoolsFollowPeaks};
ghost use Rattle.memory.specs.Asked.{Any, AnyUsed, Takes, Gives};

// An address of words.
#[derive(Clone, Copy)]
pub struct Address(pub usize);

// So many words.
#[derive(Clone, Copy)]
pub struct Size(pub usize);

// Places of words, each of a size: a place that is given back is taken again for its size only.
pub trait Pool {
    // the words; how many sizes there are, from 0; and which places are in use and which are free
    ghost words: { Self → List ℕ };

    ghost sizes: { Self → ℕ };

    ghost holds: { Self → List Place → List Place → Type 0 };

    // A place of k words, for one that is free or new; none where there is no room for one more.
    fn take(&mut self, k: Size) -> Option<Address>
        requires size { (1 ≤ k.0) × (k.0 < sizes self.old) }
        requires some { Any (holds self.old) }
        ensures takes { Takes (length (words self.old)) (holds self.old) (holds self.new) k.0 result }
        ensures same { (words self.new ≡ words self.old) × (sizes self.new ≡ sizes self.old) };

    // The place of k words at a is free again. Only its first word changes.
    fn give_back(&mut self, a: Address, k: Size)
        requires size { k.0 < sizes self.old }
        requires used { AnyUsed (holds self.old) (place a.0 k.0) }
        ensures gives { Gives (holds self.old) (holds self.new) (place a.0 k.0) }
        ensures other { (i : ℕ) → (i ≢ a.0) → slice_index (words self.new) i ≡ slice_index (words self.old) i }
        ensures same { (length (words self.new) ≡ length (words self.old)) × (sizes self.new ≡ sizes self.old) };
}

// The words; for each size the first free place, and 1, or 0; and the first word that was never in use.
// A free place's first word leads to the next in the same way. 0 and no None: the words are lent, and an Option is no word.
#[derive(Drop)]
pub struct Pools<'a> {
    pub words: &'a mut [u64],
    pub heads: &'a mut [u64],
    pub top: usize,
}

impl<'a> Pool for Pools<'a> {
    ghost words = { λ s. s.words.now };

    ghost sizes = { λ s. length s.heads.now };

    ghost holds = { λ s used free. Pooled s.words.now s.heads.now s.top used free };

    #[tactic(auto, using(crate::proofs::Places::first_in, crate::proofs::Places::refused))]
    fn take(&mut self, k: Size) -> Option<Address> {
        if let Some(a) = self.heads[k.0].checked_sub(1) {
            let a = a as usize;
            self.heads[k.0] = self.words[a];
            return Some(Address(a));
        }
        if k.0 > self.words.len() - self.top {
            return None;
        }
        let a = self.top;
        self.top = a + k.0;
        Some(Address(a))
    }

    fn give_back(&mut self, a: Address, k: Size) {
        self.words[a.0] = self.heads[k.0];
        self.heads[k.0] = a.0 as u64 + 1;
    }
}

// Pools give places exactly as the meaning counts boxes: by the peaks of each size.
#[tactic(auto, using(crate::proofs::Peaks::pools_follow_peaks))]
pub fn pools_follow_peaks() -> u8
    ensures { PoolsFollowPeaks }
{
    0
}
