ghost use Rattle.std.specs.Prelude.{◌≡◌, ℕ, ◌+◌, Some, None};

// How many turns are left. It moves through calls and comes back; it can't be copied, and is ended by `left`.
pub struct Turns(u64);

impl Turns {
    pub fn new(turns: u64) -> Turns
        ensures { result.0 ≡ turns }
    {
        Turns(turns)
    }

    // One turn less; none where all are made.
    pub fn spend(self) -> Option<Turns>
        ensures { elim result [ Some t ↦ t.0 + 1 ≡ self.0 | None ↦ self.0 ≡ 0 ] }
    {
        let Turns(count) = self;
        count.checked_sub(1).map(Turns)
    }

    pub fn left(self) -> u64
        ensures { result ≡ self.0 }
    {
        let Turns(rest) = self;
        rest
    }
}
