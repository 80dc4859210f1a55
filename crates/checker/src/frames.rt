ghost use Rattle.std.specs.Prelude.{◌≡◌, ℕ, ◌+◌, ◌*◌, ◌<◌, length};
ghost use Rattle.checker.specs.FrameWords.{frame_at, call_at, match_at, numbers, access_in, part_in, part_number, part_operand};

use code::{Access, Record};
use scope::loans::Entry;
use scope::words::{Tagged, write};
use types::Base;

// A call under way: whether its types are a function's parameters or a constructor's fields, and which are still to come; what it
// makes; where the entries of its arguments begin.
#[derive(Clone, Copy)]
pub struct Call {
    pub params: bool,
    pub next: usize,
    pub end: usize,
    pub makes: Base,
    pub base: usize,
}

// A match under way: how many names there were; how it looks, and the entry of its parts' loans; the data; where the constructors seen
// and the ends of arms begin; the fields that have no name yet.
#[derive(Clone, Copy)]
pub struct Match {
    pub names: usize,
    pub access: Access,
    pub part: Option<Entry>,
    pub data: usize,
    pub seen: usize,
    pub ends: usize,
    pub next: usize,
    pub end: usize,
}

// What is under way. Then and Test: how many names there were, and how long the log was; Else: how many names; Loop: both, when it
// began and at its do.
#[derive(Clone, Copy)]
pub enum Frame {
    Call(Call),
    Then(usize, usize),
    Else(usize),
    Test(usize, usize),
    Loop(usize, usize, usize, usize),
    Match(Match),
}

// Any number that is none of an access is read as the last.
fn access_in(number: u64) -> Access
    ensures { result ≡ access_in number }
{
    Access::try_from(number).unwrap_or(Access::Edit)
}

// By number, as frames lie in lent words: no entry has the tag 3.
fn part_in(words: Tagged) -> Option<Entry>
    ensures { result ≡ part_in words.tag words.operand }
{
    (words.tag != 3).then(|| Entry::from(words))
}

// By number as well.
fn part_words(part: Option<Entry>) -> Tagged
    ensures tag { result.tag ≡ part_number part }
    ensures operand { result.operand ≡ part_operand part }
{
    part.map_or(Tagged::new(3, 0), Tagged::from)
}

impl Frame {
    fn call(words: &[u64], number: usize) -> Call
        requires { 10 * number + 9 < length words.now }
        ensures { result ≡ call_at words.now number }
    {
        let i = 10 * number;
        Call {
            params: words[i + 1] == 1,
            next: words[i + 2] as usize,
            end: words[i + 3] as usize,
            makes: Base::from(Tagged::new(words[i + 4], words[i + 5])),
            base: words[i + 6] as usize,
        }
    }

    fn matching(words: &[u64], number: usize) -> Match
        requires { 10 * number + 9 < length words.now }
        ensures { result ≡ match_at words.now number }
    {
        let i = 10 * number;
        Match {
            names: words[i + 1] as usize,
            access: access_in(words[i + 2]),
            part: part_in(Tagged::new(words[i + 3], words[i + 4])),
            data: words[i + 5] as usize,
            seen: words[i + 6] as usize,
            ends: words[i + 7] as usize,
            next: words[i + 8] as usize,
            end: words[i + 9] as usize,
        }
    }

    // By number, the kind as well: frames lie in lent words.
    fn numbers(self) -> [u64; 10]
        ensures { result ≡ numbers self }
    {
        match self {
            Frame::Call(c) => {
                let makes = Tagged::from(c.makes);
                [
                    0,
                    u64::from(c.params),
                    c.next as u64,
                    c.end as u64,
                    makes.tag,
                    makes.operand,
                    c.base as u64,
                    0,
                    0,
                    0,
                ]
            }
            Frame::Then(a, b) => [1, a as u64, b as u64, 0, 0, 0, 0, 0, 0, 0],
            Frame::Else(a) => [2, a as u64, 0, 0, 0, 0, 0, 0, 0, 0],
            Frame::Test(a, b) => [3, a as u64, b as u64, 0, 0, 0, 0, 0, 0, 0],
            Frame::Loop(a, b, c, d) => [4, a as u64, b as u64, c as u64, d as u64, 0, 0, 0, 0, 0],
            Frame::Match(m) => {
                let part = part_words(m.part);
                [
                    5,
                    m.names as u64,
                    u64::from(m.access),
                    part.tag,
                    part.operand,
                    m.data as u64,
                    m.seen as u64,
                    m.ends as u64,
                    m.next as u64,
                    m.end as u64,
                ]
            }
        }
    }
}

impl Record for Frame {
    ghost width = { 10 };

    ghost kept = { frame_at };

    // The frame with a number. Its kind is by number: frames lie in lent words.
    fn load(words: &[u64], number: usize) -> Frame {
        let i = 10 * number;
        let a = words[i + 1] as usize;
        let b = words[i + 2] as usize;
        match words[i] {
            0 => Frame::Call(Frame::call(words, number)),
            1 => Frame::Then(a, b),
            2 => Frame::Else(a),
            3 => Frame::Test(a, b),
            4 => Frame::Loop(a, b, words[i + 3] as usize, words[i + 4] as usize),
            _ => Frame::Match(Frame::matching(words, number)),
        }
    }

    // Writes the frame with a number; the others stay.
    fn store(self, words: &mut [u64], number: usize) {
        let values = self.numbers();
        write(words, 10 * number, &values);
    }
}
