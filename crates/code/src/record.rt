ghost use Rattle.std.specs.Prelude.{◌≡◌, ℕ, ◌+◌, ◌*◌, ◌≤◌, List, length, ◌≢◌};

// What lies in lent words: so many words to each.
pub trait Record: Copy {
    ghost width: { ℕ };

    // the one with a number, in words
    ghost kept: { List ℕ → ℕ → Self };

    fn load(words: &[u64], number: usize) -> Self
        requires { (number + 1) * width ≤ length words.now }
        ensures { result ≡ kept words.now number };

    fn store(self, words: &mut [u64], number: usize)
        requires { (number + 1) * width ≤ length words.old }
        ensures this { kept words.new number ≡ self }
        ensures others { (k : ℕ) → (k ≢ number) → kept words.new k ≡ kept words.old k };
}
