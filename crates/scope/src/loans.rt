ghost use Rattle.std.specs.Prelude.{◌≡◌, ◌≢◌, ℕ, ◌+◌, ◌-◌, ◌*◌, ◌<◌, ◌≤◌, List, [], ◌∷◌, length};
ghost use Rattle.language.specs.Base.{some_of};
ghost use Rattle.lexer.specs.Spelling.{spelling};
ghost use Rattle.scope.specs.Loans.{loan_at, entry_in, entry_number, operand_of, slice, leaves, ent_of, asks};

use crate::log::Place;
use crate::words::{Tagged, write};
use code::Record;
use lexer::{Name, same_name};

// An entry of a name's loans: a loan, shared or alone, of what another name has; or all that the name at a place has.
#[derive(Clone, Copy)]
pub enum Entry {
    Shared(Name),
    Alone(Name),
    Via(Place),
}

impl From<Tagged> for Entry {
    ghost from_gives = { λ w e. e ≡ entry_in w.tag w.operand };

    fn from(words: Tagged) -> Entry {
        let k = words.operand as usize;
        match words.tag {
            0 => Entry::Shared(Name(k)),
            1 => Entry::Alone(Name(k)),
            _ => Entry::Via(Place(k)),
        }
    }
}

impl From<Entry> for Tagged {
    ghost from_gives = { λ e w. (w.tag ≡ entry_number e) × (w.operand ≡ operand_of e) × (entry_in w.tag w.operand ≡ e) };

    fn from(entry: Entry) -> Tagged {
        match entry {
            Entry::Shared(name) => Tagged::new(0, name.0 as u64),
            Entry::Alone(name) => Tagged::new(1, name.0 as u64),
            Entry::Via(place) => Tagged::new(2, place.0 as u64),
        }
    }
}

impl Record for Entry {
    ghost width = { 2 };

    ghost kept = { loan_at };

    fn load(words: &[u64], number: usize) -> Entry {
        let i = 2 * number;
        Entry::from(Tagged::new(words[i], words[i + 1]))
    }

    // Writes an entry at a height; what's below stays.
    fn store(self, words: &mut [u64], number: usize)
        requires { (number + 1) * 2 ≤ length words.old }
        ensures this { loan_at words.new number ≡ self }
        ensures others { (k : ℕ) → (k ≢ number) → loan_at words.new k ≡ loan_at words.old k }
        ensures below { (text : List ℕ) (from n : ℕ) → from + n ≤ number → slice text words.new from n ≡ slice text words.old from n }
    {
        let held = Tagged::from(self);
        write(words, 2 * number, &[held.tag, held.operand]);
    }
}

// What is asked of loans: whether there's one at all, or one that's alone.
#[derive(Clone, Copy)]
pub enum Asked {
    Any,
    Alone,
}

// Whether an entry is such a loan of a name. What an older name has is among that name's entries.
fn lends(text: &[u8], entry: Entry, name: Name, asked: Asked) -> bool
    ensures { result ≡ some_of (asks asked (spelling text.now name)) (leaves (ent_of text.now entry ∷ [])) }
{
    match entry {
        Entry::Shared(root) => match asked {
            Asked::Any => same_name(text, root, name),
            Asked::Alone => false,
        },
        Entry::Alone(root) => same_name(text, root, name),
        Entry::Via(_) => false,
    }
}

// Whether one of the entries from `from` up to `to` is such a loan of a name.
pub fn is_lent(text: &[u8], words: &[u64], from: usize, to: usize, name: Name, asked: Asked) -> bool
    requires { 2 * to ≤ length words.now }
    ensures { result ≡ some_of (asks asked (spelling text.now name)) (leaves (slice text.now words.now from (to - from))) }
{
    (from..to).any(|i| lends(text, Entry::load(words, i), name, asked))
}
