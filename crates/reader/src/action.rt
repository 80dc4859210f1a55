use super::symbol::Symbol;
use code::Instr;

// What a symbol on top of the stack is replaced by: an instruction that is given out, or so many symbols, the first of them on top.
// A variant for each number of symbols: one with an ArrayVec<Symbol, 8> was tried, and texts were read three to six times slower; eight
// places with a count were three times slower a step.
#[derive(Clone, Copy)]
pub enum Action {
    Emit(Instr),
    Push0,
    Push1([Symbol; 1]),
    Push2([Symbol; 2]),
    Push3([Symbol; 3]),
    Push4([Symbol; 4]),
    Push6([Symbol; 6]),
    Push7([Symbol; 7]),
    Push8([Symbol; 8]),
}
