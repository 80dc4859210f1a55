ghost use Rattle.std.specs.Prelude.{◌≡◌, ◌+◌, ◌*◌, get_or};
ghost use Rattle.tables.specs.Rows.{declared_row, param_row};

use crate::row::Row;
use crate::span::Span;
use code::Record;
use lexer::Name;

// A declaration: its name, where its instruction stands in the code, and its parts: the constructors of data, the fields of a
// constructor, the parameters of a function.
#[derive(Clone, Copy)]
pub struct Declared {
    pub name: Name,
    pub at: usize,
    pub parts: Span,
}

// A parameter: its name, and where its instruction stands, right behind its type.
#[derive(Clone, Copy)]
pub struct Parameter {
    pub name: Name,
    pub at: usize,
}

// Two impls of Row with one body: a trait can't say that Self has a field.
impl Row for Declared {
    ghost title = { λ r. r.name };

    fn name(self) -> Name {
        self.name
    }
}

impl Record for Declared {
    ghost width = { 4 };

    ghost kept = { declared_row };

    fn load(words: &[u64], number: usize) -> Declared {
        let i = 4 * number;
        let parts = Span {
            first: words[i + 2] as usize,
            end: words[i + 3] as usize,
        };
        Declared {
            name: Name(words[i] as usize),
            at: words[i + 1] as usize,
            parts,
        }
    }

    fn store(self, words: &mut [u64], number: usize) {
        let i = 4 * number;
        words[i] = self.name.0 as u64;
        words[i + 1] = self.at as u64;
        words[i + 2] = self.parts.first as u64;
        words[i + 3] = self.parts.end as u64;
    }
}

impl Row for Parameter {
    ghost title = { λ r. r.name };

    fn name(self) -> Name {
        self.name
    }
}

impl Record for Parameter {
    ghost width = { 2 };

    ghost kept = { param_row };

    fn load(words: &[u64], number: usize) -> Parameter {
        let i = 2 * number;
        Parameter {
            name: Name(words[i] as usize),
            at: words[i + 1] as usize,
        }
    }

    fn store(self, words: &mut [u64], number: usize) {
        let i = 2 * number;
        words[i] = self.name.0 as u64;
        words[i + 1] = self.at as u64;
    }
}
