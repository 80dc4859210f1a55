ghost use Rattle.std.specs.Prelude.{◌≡◌, ◌≢◌, ℕ, ◌+◌, ◌-◌, ◌*◌, ◌<◌, ◌≤◌, ◌∷◌, length, ◌==◌, slice_index, slice_set};
ghost use Rattle.scope.specs.Log.{find as Found, said as Said, part, lives, gone_at, bit_of, move_at, behind, rewrite, ways};

use code::Record;

// The place of a name in scope: how many are older.
#[derive(Clone, Copy, PartialEq, Eq)]
pub struct Place(pub usize);

// An entry of the log: the name at a place was moved, or is there again.
#[derive(Clone, Copy)]
pub struct Move {
    pub place: Place,
    pub gone: bool,
}

impl Record for Move {
    ghost width = { 2 };

    ghost kept = { move_at };

    fn load(words: &[u64], number: usize) -> Move {
        let i = 2 * number;
        Move {
            place: Place(words[i] as usize),
            gone: words[i + 1] == 1,
        }
    }

    fn store(self, words: &mut [u64], number: usize)
        requires { (number + 1) * 2 ≤ length words.old }
        ensures this { move_at words.new number ≡ self }
        ensures others { (k : ℕ) → (k ≢ number) → move_at words.new k ≡ move_at words.old k }
        ensures value { words.new ≡ slice_set (slice_set words.old (2 * number) self.place.0) (2 * number + 1) (bit_of self.gone) }
    {
        let i = 2 * number;
        words[i] = self.place.0 as u64;
        words[i + 1] = bit(self.gone);
    }
}

// What the entries from `from` up to `to` say of a place, the newest first.
pub fn said(log: &[u64], from: usize, to: usize, place: Place) -> Option<bool>
    requires { 2 * to ≤ length log.now }
    ensures { result ≡ Said (part log.now from (to - from)) place.0 }
{
    // No `find`: what `rev` of a range yields, no lemma says.
    for t in (from..to).rev() {
        let entry = Move::load(log, t);
        if entry.place == place {
            return Some(entry.gone);
        }
    }
    None
}

// Whether the newest word on a place, past the gaps, is that it's gone.
pub fn is_gone(log: &[u64], top: usize, gaps: &[u64], count: usize, place: Place) -> bool
    requires { (2 * top ≤ length log.now) × (2 * count ≤ length gaps.now) }
    ensures { result ≡ Found (lives log.now gaps.now count top) place.0 }
{
    let mut t = top;
    // By number: each gap lowers how far the log is read. A gap is no Record, since nothing stores one here.
    for g in (0..count).rev() {
        if let Some(gone) = said(log, gaps[2 * g + 1] as usize, t, place) {
            return gone;
        }
        t = t.min(gaps[2 * g] as usize);
    }
    said(log, 0, t, place).unwrap_or(false)
}

// The word for gone, or there: From with a name, whose clauses tie it to the definition's bit.
pub fn bit(gone: bool) -> u64
    ensures is { (result == 1) ≡ gone }
    ensures value { result ≡ bit_of gone }
{
    u64::from(gone)
}

// A move, or that it's there again: one entry more.
pub fn push(log: &mut [u64], top: usize, place: Place, gone: bool) -> usize
    requires { 2 * top + 1 < length log.old }
    ensures height { result ≡ top + 1 }
    ensures newest { part log.new 0 (top + 1) ≡ gone_at place.0 gone ∷ part log.old 0 top }
{
    Move { place, gone }.store(log, top);
    top + 1
}

// Whether a place is gone behind one of the ways that lie one behind the other from `from` on; `was` is what's said below them.
fn gone_behind(log: &[u64], from: usize, ends: &[u64], place: Place, was: bool) -> bool
    requires { (j : ℕ) → j < length ends.now → 2 * slice_index ends.now j ≤ length log.now }
    ensures { result ≡ behind (ways log.now from ends.now) place.0 was }
{
    let mut start = from;
    // No `any`: each way begins where the last one ended.
    for end in ends {
        let end = *end as usize;
        if said(log, start, end, place).unwrap_or(was) {
            return true;
        }
        start = end;
    }
    false
}

// Writes over the entries of several ways, which lie from `from` up to `top`, what all of them together say: gone, if it is behind one.
pub fn join(log: &mut [u64], from: usize, top: usize, ends: &[u64], gaps: &[u64], count: usize)
    requires { (2 * top ≤ length log.old) × ((from ≤ top) × ((2 * count ≤ length gaps.now) × (((j : ℕ) → j < length ends.now → 2 * slice_index ends.now j ≤ length log.old)))) }
    ensures joined { part log.new from (top - from) ≡ rewrite (part log.old from (top - from)) (ways log.old from ends.now) (lives log.old gaps.now count from) }
    ensures kept { part log.new 0 from ≡ part log.old 0 from }
{
    // By number: each turn reads the whole log, of which it writes one entry.
    for i in from..top {
        let place = Move::load(log, i).place;
        let was = is_gone(log, from, gaps, count, place);
        let gone = gone_behind(log, from, ends, place, was);
        Move { place, gone }.store(log, i);
    }
}
