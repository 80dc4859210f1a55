ghost use Rattle.std.specs.Prelude.{◌≡◌, ◌-◌};

// Numbers of rows: from the first up to the end, which is no more in it. No Range, since that is not Copy.
#[derive(Clone, Copy)]
pub struct Span {
    pub first: usize,
    pub end: usize,
}

impl Span {
    // The rows before the end.
    pub fn up_to(end: usize) -> Span
        ensures { result ≡ record { first = 0; end = end } }
    {
        Span { first: 0, end }
    }

    // How many there are.
    pub fn count(self) -> usize
        ensures { result ≡ self.end - self.first }
    {
        self.end.saturating_sub(self.first)
    }
}
