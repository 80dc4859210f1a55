ghost use Rattle.std.specs.Prelude.{◌≡◌, ◌+◌, ◌*◌, ◌≤◌, [], ◌∷◌, length};
ghost use Rattle.reader.specs.Machine.{pushed, given, StackFits, HasRoom, Piled, Performed, Popped};

use super::action::Action;
use super::symbol::Symbol;
use code::{Instr, Record, encode};

// How far a reading has come in the lent words: so many instructions are made, in the slots below base, and so many symbols that are
// still to be read are on the stack, in those from base on. The words stay a parameter of each method: that heights are plain values
// beside lent words is a rule of the project.
#[derive(Clone, Copy)]
pub struct Progress {
    base: usize,
    height: usize,
    pub made: usize,
}

impl Progress {
    pub fn new(base: usize) -> Self
        ensures { result ≡ record { base = base; height = 0; made = 0 } }
    {
        Progress {
            base,
            height: 0,
            made: 0,
        }
    }

    // Gives an instruction out, behind the others.
    fn emit(&mut self, words: &mut [u64], instr: Instr)
        requires { HasRoom words.old self.old 0 }
        ensures { Performed [] (instr ∷ []) words.old self.old words.new self.new }
    {
        encode(instr, words, self.made);
        self.made += 1;
    }

    // Puts a symbol on top of the stack.
    #[tactic(auto, using(crate::proofs::OnStack::stack_put, crate::proofs::OnStack::same_stack))]
    fn push(&mut self, words: &mut [u64], symbol: Symbol)
        requires { StackFits words.old self.old 1 }
        ensures { Piled (symbol ∷ []) words.old self.old words.new self.new }
    {
        symbol.store(words, self.base + self.height);
        self.height += 1;
    }

    // Puts symbols on top of the stack, the first of them last.
    pub fn pile(&mut self, words: &mut [u64], symbols: &[Symbol])
        requires { StackFits words.old self.old (length symbols.now) }
        ensures piled { Piled symbols.now words.old self.old words.new self.new }
        ensures performed { self.old.made ≤ self.old.base → Performed symbols.now [] words.old self.old words.new self.new }
    {
        // By number: over symbols.iter().rev() the invariant has to say what was yielded so far, in three answers for this one line.
        for i in (0..symbols.len()).rev() {
            self.push(words, symbols[i]);
        }
    }

    // Does what a step answered.
    pub fn perform(&mut self, words: &mut [u64], action: Action)
        requires { HasRoom words.old self.old 8 }
        ensures { Performed (pushed action) (given action) words.old self.old words.new self.new }
    {
        match action {
            Action::Emit(instr) => self.emit(words, instr),
            Action::Push0 => self.pile(words, &[]),
            Action::Push1(symbols) => self.pile(words, &symbols),
            Action::Push2(symbols) => self.pile(words, &symbols),
            Action::Push3(symbols) => self.pile(words, &symbols),
            Action::Push4(symbols) => self.pile(words, &symbols),
            Action::Push6(symbols) => self.pile(words, &symbols),
            Action::Push7(symbols) => self.pile(words, &symbols),
            Action::Push8(symbols) => self.pile(words, &symbols),
        }
    }

    // Takes the symbol on top of the stack, if there is one.
    pub fn pop(&mut self, words: &[u64]) -> Option<Symbol>
        requires { 3 * (self.old.base + self.old.height) ≤ length words.now }
        ensures { Popped words.now self.old result self.new }
    {
        self.height = self.height.checked_sub(1)?;
        Some(Symbol::load(words, self.base + self.height))
    }
}
