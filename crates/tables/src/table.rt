ghost use Rattle.std.specs.Prelude.{◌≡◌, ℕ, ◌+◌, ◌*◌, ◌<◌, ◌≤◌, length, MatchOption, IfSome};
ghost use Rattle.std.proofs.Math.Option.{some as Just, none as Nothing};
ghost use Rattle.tables.specs.Index.{first_in, is_spelled};

use crate::key::Key;
use crate::row::Row;
use crate::span::Span;

// The number of the first row that has the name looked for, among those of a span. Text, words and span come as three, here and in
// `twice` and `once`: a struct of them would have to be written out, of six lines, at each of the seven calls.
pub fn find<R: Row, K: Key>(text: &[u8], words: &[u64], rows: Span, key: K) -> Option<usize>
    requires { rows.end * R.width ≤ length words.now }
    ensures is { MatchOption result (first_in (is_spelled text.now R.title (R.kept words.now) (K.spelled text.now key)) rows ≡ Nothing) (λ k. first_in (is_spelled text.now R.title (R.kept words.now) (K.spelled text.now key)) rows ≡ Just k) }
    ensures within { IfSome result (λ k. k < rows.end) }
{
    (rows.first..rows.end).find(|&k| key.names(text, R::load(words, k).name()))
}
