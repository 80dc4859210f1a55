ghost use Rattle.std.specs.Prelude.{◌≡◌, ℕ, ◌+◌, ◌<◌, ◌≤◌, List, ◌∷◌, length, slice_index, slice_set};
ghost use Rattle.memory.specs.Row.{heap_words, stack_words, row, Moved, Apart, SamePools};
ghost use Rattle.std.proofs.Common.{rules};

use crate::pool::{Address, Pools, Size};

// Words for boxes, and words for what's under way.
#[derive(Drop)]
pub struct Memory<'a> {
    pub boxes: Pools<'a>,
    pub stack: &'a mut [u64],
}

// Where words are read.
pub trait Source {
    // where it lies in the row, if boxes have so many words; whether so many words are there
    ghost from: { Self → ℕ → ℕ };

    ghost has: { Self → ℕ → ℕ → ℕ → Type 0 };

    fn read(&self, m: &Memory, i: usize) -> u64
        requires { has self.now (heap_words m.now) (stack_words m.now) (i + 1) }
        ensures { result ≡ slice_index (row m.now) (from self.now (heap_words m.now) + i) };

    ghost fewer: { (s : Self) (h k n i : ℕ) → has s h k n → i < n → has s h k (i + 1) };
}

// Where words are written. It has a place of its own, and none with Source: a type may write other words than it reads.
pub trait Sink {
    ghost to: { Self → ℕ → ℕ };

    ghost holds: { Self → ℕ → ℕ → ℕ → Type 0 };

    fn write(&self, m: &mut Memory, i: usize, v: u64)
        requires { holds self.now (heap_words m.old) (stack_words m.old) (i + 1) }
        ensures same { SamePools m.old m.new }
        ensures put { row m.new ≡ slice_set (row m.old) (to self.now (heap_words m.old) + i) v };

    ghost shorter: { (s : Self) (h k n i : ℕ) → holds s h k n → i < n → holds s h k (i + 1) };

    ghost within: { (s : Self) (h k n : ℕ) → holds s h k n → to s h + n ≤ h + k };
}

// Words of a box, by the address in the heap.
#[derive(Clone, Copy)]
pub struct InBox(pub Address);

// Words under way, by the place in the stack.
#[derive(Clone, Copy)]
pub struct UnderWay(pub Address);

// Words at an address of the row: of a box, or under way. Which of the two is no look at what is there.
#[derive(Clone, Copy)]
pub struct Referred(pub Address);

impl Source for InBox {
    ghost from = { λ s h. s.0.0 };

    ghost has = { λ s h k n. s.0.0 + n ≤ h };

    ghost fewer = { Prim.search rules };

    fn read(&self, m: &Memory, i: usize) -> u64 {
        let InBox(start) = *self;
        m.boxes.words[start.0 + i]
    }
}

impl Source for UnderWay {
    ghost from = { λ s h. h + s.0.0 };

    ghost has = { λ s h k n. s.0.0 + n ≤ k };

    ghost fewer = { Prim.search rules };

    fn read(&self, m: &Memory, i: usize) -> u64 {
        let UnderWay(start) = *self;
        m.stack[start.0 + i]
    }
}

impl Sink for InBox {
    ghost to = { λ s h. s.0.0 };

    ghost holds = { λ s h k n. s.0.0 + n ≤ h };

    ghost shorter = { Prim.search rules };

    ghost within = { Prim.search rules };

    fn write(&self, m: &mut Memory, i: usize, v: u64) {
        m.boxes.words[self.0.0 + i] = v;
    }
}

impl Sink for UnderWay {
    ghost to = { λ s h. h + s.0.0 };

    ghost holds = { λ s h k n. s.0.0 + n ≤ k };

    ghost shorter = { Prim.search rules };

    ghost within = { Prim.search rules };

    fn write(&self, m: &mut Memory, i: usize, v: u64) {
        m.stack[self.0.0 + i] = v;
    }
}

impl Source for Referred {
    ghost from = { λ s h. s.0.0 };

    ghost has = { λ s h k n. s.0.0 + n ≤ h + k };

    ghost fewer = { Prim.search rules };

    fn read(&self, m: &Memory, i: usize) -> u64 {
        let word = self.0.0 + i;
        let heap = m.boxes.words.len();
        if word < heap {
            m.boxes.words[word]
        } else {
            m.stack[word - heap]
        }
    }
}

impl Sink for Referred {
    ghost to = { λ s h. s.0.0 };

    ghost holds = { λ s h k n. s.0.0 + n ≤ h + k };

    ghost shorter = { Prim.search rules };

    ghost within = { Prim.search rules };

    fn write(&self, m: &mut Memory, i: usize, v: u64) {
        let at = self.0.0 + i;
        let heap = m.boxes.words.len();
        if at < heap {
            m.boxes.words[at] = v;
        } else {
            m.stack[at - heap] = v;
        }
    }
}

// Moves n words.
pub fn move_words<S: Source, T: Sink>(m: &mut Memory, s: &S, t: &T, n: Size)
    requires has { S.has s.now (heap_words m.old) (stack_words m.old) n.0 }
    requires holds { T.holds t.now (heap_words m.old) (stack_words m.old) n.0 }
    requires apart { Apart (S.from s.now (heap_words m.old)) (T.to t.now (heap_words m.old)) n.0 }
    ensures same { SamePools m.old m.new }
    ensures moved { Moved (row m.old) (row m.new) (S.from s.now (heap_words m.old)) (T.to t.now (heap_words m.old)) n.0 }
{
    // By number: both places may lie in one slice, so a word at a time is borrowed.
    for i in 0..n.0 {
        let v = s.read(m, i);
        t.write(m, i, v);
    }
}
