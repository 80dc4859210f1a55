// Words under way and turns: how many there are, and how many there may be.
ghost use Rattle.std.specs.Prelude.{◌≡◌, ◌+◌, ◌<◌, ◌≤◌, max, MatchResult};

use crate::stop::Stop;

#[derive(Clone, Copy)]
pub struct Meter {
    under: u64,
    most_under: u64,
    stack: u64,
    turns: u64,
    max_turns: u64,
}

// What a method leaves alone it says itself: no invariant of the struct could say that.
impl Meter {
    pub fn new(stack: u64, max_turns: u64) -> Self
        ensures { (result.under ≡ 0) × (result.most_under ≡ 0) × (result.stack ≡ stack) × (result.turns ≡ 0) × (result.max_turns ≡ max_turns) }
    {
        Meter {
            under: 0,
            most_under: 0,
            stack,
            turns: 0,
            max_turns,
        }
    }

    // The most words that were under way.
    pub fn most_under(&self) -> u64
        ensures { result ≡ self.now.most_under }
    {
        self.most_under
    }

    pub fn turns(&self) -> u64
        ensures { result ≡ self.now.turns }
    {
        self.turns
    }

    // One turn more.
    pub fn turn(&mut self) -> Result<(), Stop>
        ensures turns { MatchResult result (λ _. (self.old.turns < self.old.max_turns) × (self.new.turns ≡ self.old.turns + 1)) (λ _. (self.old.max_turns ≤ self.old.turns) × (self.new.turns ≡ self.old.turns)) }
        ensures under { (self.new.under ≡ self.old.under) × (self.new.most_under ≡ self.old.most_under) }
        ensures limits { (self.new.stack ≡ self.old.stack) × (self.new.max_turns ≡ self.old.max_turns) }
    {
        if self.turns >= self.max_turns {
            return Err(Stop::NoTurns);
        }
        self.turns += 1;
        Ok(())
    }

    // So many words more are under way: how many there were before.
    pub fn go_under(&mut self, words: u64) -> Result<u64, Stop>
        ensures under { MatchResult result (λ before. (before ≡ self.old.under) × (before + words ≤ self.old.stack) × (self.new.under ≡ before + words) × (self.new.most_under ≡ max self.old.most_under (before + words))) (λ _. (self.old.stack < self.old.under + words) × (self.new.under ≡ self.old.under)) }
        ensures turns { self.new.turns ≡ self.old.turns }
        ensures limits { (self.new.stack ≡ self.old.stack) × (self.new.max_turns ≡ self.old.max_turns) }
    {
        let before = self.under;
        self.stack
            .checked_sub(before)
            .and_then(|left| left.checked_sub(words))
            .ok_or(Stop::NoStack)?;
        self.under = before + words;
        self.most_under = self.most_under.max(self.under);
        Ok(before)
    }

    // Back to so many words.
    pub fn come_back(&mut self, before: u64)
        ensures under { (self.new.under ≡ before) × (self.new.most_under ≡ self.old.most_under) }
        ensures turns { self.new.turns ≡ self.old.turns }
        ensures limits { (self.new.stack ≡ self.old.stack) × (self.new.max_turns ≡ self.old.max_turns) }
    {
        self.under = before;
    }
}
