ghost use Rattle.std.specs.Prelude.{◌≡◌, ◌*◌, ◌<◌, ◌≤◌, true, false, length, MatchOption, MatchResult};
ghost use Rattle.language.specs.Base.{no_twice};
ghost use Rattle.lexer.specs.Spelling.{spelling};
ghost use Rattle.tables.specs.Index.{all_in};

use crate::fault::Fault;
use crate::row::Row;
use crate::span::Span;
use crate::table::find;
use lexer::Name;

// The number of a row that has the name of one before it. Each name is looked up once.
pub fn twice<R: Row>(text: &[u8], words: &[u64], rows: Span) -> Option<usize>
    requires { rows.end * R.width ≤ length words.now }
    ensures { MatchOption result (no_twice (all_in (λ k. spelling text.now (R.title (R.kept words.now k))) rows) ≡ true) (λ k. (no_twice (all_in (λ k. spelling text.now (R.title (R.kept words.now k))) rows) ≡ false) × (k < rows.end)) }
{
    // A `for`, since a closure of `find_map` would need clauses of its own, for the row and for the rest.
    for i in rows.first..rows.end {
        let rest = Span {
            first: i + 1,
            ..rows
        };
        if let Some(k) = find::<R, Name>(text, words, rest, R::load(words, i).name()) {
            return Some(k);
        }
    }
    None
}

// That no row has the name of one before it, or else the fault with that name.
pub fn once<R: Row, F: FnOnce(Name) -> Fault>(
    text: &[u8],
    words: &[u64],
    rows: Span,
    fault: F,
) -> Result<(), Fault>
    requires room { rows.end * R.width ≤ length words.now }
    requires fault { F.IsAlwaysCallable fault }
    ensures { MatchResult result (λ _. no_twice (all_in (λ k. spelling text.now (R.title (R.kept words.now k))) rows) ≡ true) (λ _. no_twice (all_in (λ k. spelling text.now (R.title (R.kept words.now k))) rows) ≡ false) }
{
    // A match: no method makes an error of a value that is there.
    match twice::<R>(text, words, rows) {
        Some(k) => Err(fault(R::load(words, k).name())),
        None => Ok(()),
    }
}
