ghost use Rattle.std.specs.Prelude.{◌≡◌, ℕ, ◌+◌, ◌*◌, ◌<◌, ◌≤◌, List, length};
ghost use Rattle.scope.specs.Loans.{slice, loan_at};
ghost use Rattle.checker.specs.Stands.{lent_in, with_loans};

use crate::state::Words;
use code::Record;
use scope::loans::Entry;

// An entry of an argument or of the value.
fn arg_at(words: &Words<'_>, at: usize) -> Entry
    requires { 2 * at + 1 < length words.now.args.now }
    ensures { result ≡ loan_at words.now.args.now at }
{
    Entry::load(words.args, at)
}

// Writes an entry of a name.
fn put_loan(words: &mut Words<'_>, at: usize, entry: Entry)
    requires { 2 * at + 1 < length words.old.loans.now }
    ensures this { loan_at words.new.loans.now at ≡ entry }
    ensures below { (text : List ℕ) (from n : ℕ) → from + n ≤ at → slice text words.new.loans.now from n ≡ slice text words.old.loans.now from n }
    ensures long { length words.new.loans.now ≡ length words.old.loans.now }
    ensures kept { (text code : List ℕ) → lent_in text code words.new ≡ with_loans (lent_in text code words.old) words.new.loans.now }
{
    entry.store(words.loans, at);
}

// The value's entries, once more as those of a name.
pub fn copy_loans(words: &mut Words<'_>, base: usize, to: usize, count: usize)
    requires { (2 * (base + count) ≤ length words.old.args.now) × (2 * (to + count) ≤ length words.old.loans.now) }
    ensures copied { (text : List ℕ) → slice text words.new.loans.now to count ≡ slice text words.old.args.now base count }
    ensures below { (text : List ℕ) (from n : ℕ) → from + n ≤ to → slice text words.new.loans.now from n ≡ slice text words.old.loans.now from n }
    ensures kept { (text code : List ℕ) → lent_in text code words.new ≡ with_loans (lent_in text code words.old) words.new.loans.now }
{
    // Entry by entry: that two fields of the words go to one call, as in copy_from_slice, gets no proof.
    for i in 0..count {
        let entry = arg_at(words, base + i);
        put_loan(words, to + i, entry);
    }
}
