ghost use Rattle.std.specs.Prelude.{◌≡◌, ◌≢◌, ℕ, ◌+◌, ◌-◌, ◌*◌, ◌<◌, ◌≤◌, List, length, MatchOption};
ghost use Rattle.std.proofs.Math.Option.{none as Nothing};
ghost use Rattle.language.specs.Base.{some_of};
ghost use Rattle.lexer.specs.Spelling.{spelling};
ghost use Rattle.scope.specs.Loans.{asks, leaves};
ghost use Rattle.scope.specs.Slots.{variable_at, slots_of, seek as Seek, stack, Sought, base_in, base_number, base_operand};

use crate::loans::{Asked, is_lent};
use crate::log::{Place, bit};
use crate::words::{Tagged, write};
use code::Record;
use lexer::{Name, same_name};
use types::{Base, Outer, ValueType};

// A name in scope: its type, where the entries of its loans begin, and whether all of these are of what the caller lent.
#[derive(Clone, Copy)]
pub struct Variable {
    pub name: Name,
    pub ty: ValueType,
    pub loans: usize,
    pub lent: bool,
}

impl From<Tagged> for Base {
    ghost from_gives = { λ w b. b ≡ base_in w.tag w.operand };

    fn from(words: Tagged) -> Base {
        match words.tag {
            1 => Base::Data(Name(words.operand as usize)),
            2 => Base::Written(words.operand as usize),
            _ => Base::Number,
        }
    }
}

impl From<Base> for Tagged {
    ghost from_gives = { λ b w. (w.tag ≡ base_number b) × (w.operand ≡ base_operand b) };

    fn from(base: Base) -> Tagged {
        match base {
            Base::Number => Tagged::new(0, 0),
            Base::Data(name) => Tagged::new(1, name.0 as u64),
            Base::Written(slot) => Tagged::new(2, slot as u64),
        }
    }
}

impl Record for Variable {
    ghost width = { 7 };

    ghost kept = { variable_at };

    // The name at a place.
    fn load(words: &[u64], number: usize) -> Variable {
        let i = 7 * number;
        let ty = ValueType {
            outer: Outer::from(words[i + 1]),
            boxes: words[i + 2] as usize,
            base: Base::from(Tagged::new(words[i + 3], words[i + 4])),
        };
        Variable {
            name: Name(words[i] as usize),
            ty,
            loans: words[i + 5] as usize,
            lent: words[i + 6] == 1,
        }
    }

    // Writes a name at a place; those below stay.
    fn store(self, words: &mut [u64], number: usize)
        requires { (number + 1) * 7 ≤ length words.old }
        ensures this { variable_at words.new number ≡ self }
        ensures others { (k : ℕ) → (k ≢ number) → variable_at words.new k ≡ variable_at words.old k }
        ensures below { (text code es : List ℕ) (h top : ℕ) → h ≤ number → slots_of text code words.new es h top ≡ slots_of text code words.old es h top }
    {
        let ty = self.ty;
        let base = Tagged::from(ty.base);
        let values = [
            self.name.0 as u64,
            u64::from(ty.outer),
            ty.boxes as u64,
            base.tag,
            base.operand,
            self.loans as u64,
            bit(self.lent),
        ];
        write(words, 7 * number, &values);
    }
}

// The place of the newest name with that spelling, of the oldest `height`.
pub fn seek(text: &[u8], names: &[u64], height: usize, name: Name) -> Option<Place>
    requires { 7 * height ≤ length names.now }
    ensures { (code es : List ℕ) (top : ℕ) → MatchOption result (Seek (slots_of text.now code names.now es height top) (spelling text.now name) ≡ Nothing) (λ p. Sought text.now code names.now height (spelling text.now name) p.0 (Seek (slots_of text.now code names.now es height top) (spelling text.now name))) }
{
    // No `find`, here and in `said`: what `rev` of a range yields, no lemma says.
    for h in (0..height).rev() {
        if same_name(text, Variable::load(names, h).name, name) {
            return Some(Place(h));
        }
    }
    None
}

// Whether one of the names has such a loan of a name.
pub fn has_loan(
    text: &[u8],
    names: &[u64],
    height: usize,
    loans: &[u64],
    top: usize,
    name: Name,
    asked: Asked,
) -> bool
    requires { (7 * height ≤ length names.now) × (2 * top ≤ length loans.now) }
    ensures { (code : List ℕ) → result ≡ some_of (asks asked (spelling text.now name)) (leaves (stack (slots_of text.now code names.now loans.now height top))) }
{
    let mut t = top;
    for h in (0..height).rev() {
        // No `any` over the names: each name's loans end where the newer one's begin.
        let from = Variable::load(names, h).loans;
        if is_lent(text, loans, from, t, name, asked) {
            return true;
        }
        t = t.min(from);
    }
    false
}
