ghost use Rattle.std.specs.Prelude.{◌≡◌, ℕ, ◌+◌, ◌<◌, ◌≤◌, length, slice_index};

// Writes some words from a place on.
pub fn write(words: &mut [u64], at: usize, values: &[u64])
    requires { at + length values.now ≤ length words.old }
    ensures here { (j : ℕ) → j < length values.now → slice_index words.new (at + j) ≡ slice_index values.now j }
    ensures below { (j : ℕ) → j < at → slice_index words.new j ≡ slice_index words.old j }
    ensures above { (j : ℕ) → at + length values.now ≤ j → slice_index words.new j ≡ slice_index words.old j }
{
    let end = at + values.len();
    words[at..end].copy_from_slice(values);
}

// Two words: which case of an enum, and of what. A number for the case, since it lies in lent words.
#[derive(Clone, Copy)]
pub struct Tagged {
    pub tag: u64,
    pub operand: u64,
}

impl Tagged {
    pub fn new(tag: u64, operand: u64) -> Tagged
        ensures tag { result.tag ≡ tag }
        ensures operand { result.operand ≡ operand }
    {
        Tagged { tag, operand }
    }
}
