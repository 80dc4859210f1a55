ghost use Rattle.std.specs.Prelude.{◌≡◌, ◌-◌, ◌<◌, ◌≤◌, true, false, ◌∷◌, length, slice_index};
ghost use Rattle.language.specs.Text.{is_word_byte, is_blank};
ghost use Rattle.lexer.specs.Places.{from_place, part, skipped};
ghost use Rattle.lexer.specs.Spelling.{lexeme_at, word_run};

// Whether a byte may stand in a word.
pub fn in_word(b: u8) -> bool
    ensures { result ≡ is_word_byte b }
{
    b.is_ascii_alphanumeric() || b == b'_'
}

fn is_blank(b: u8) -> bool
    ensures { result ≡ is_blank b }
{
    matches!(b, b' ' | b'\n' | b'\r' | b'\t')
}

// The first place from start on whose byte is neither blank nor in a comment.
pub fn skip_blanks(text: &[u8], start: usize) -> usize
    requires { start ≤ length text.now }
    ensures rest { from_place text.now start ≡ from_place text.now result }
    ensures stops { result < length text.now → skipped (slice_index text.now result) ≡ false }
    ensures within { (start ≤ result) × (result ≤ length text.now) }
{
    // A flag: the definition's own state, in a comment or not.
    let mut comment = false;
    for (i, b) in text[start..].iter().enumerate() {
        if comment {
            comment = *b != b'\n';
        } else if *b == b'#' {
            comment = true;
        } else if !is_blank(*b) {
            return start + i;
        }
    }
    text.len()
}

// How many word bytes stand at the front.
pub fn word_length(bytes: &[u8]) -> usize
    ensures run { result ≡ length (word_run bytes.now) }
    ensures within { result ≤ length bytes.now }
{
    bytes.iter().take_while(|b| in_word(**b)).count()
}

// The place behind the run of word bytes from start on.
#[tactic(auto, using(crate::proofs::Runs::rest_length, crate::proofs::Runs::run_to))]
pub fn word_end(text: &[u8], start: usize) -> usize
    requires { start ≤ length text.now }
    ensures within { (start ≤ result) × (result ≤ length text.now) }
    ensures run { lexeme_at text.now start ≡ part text.now start result }
{
    start + word_length(&text[start..])
}

// The place behind the lexeme that starts at start.
#[tactic(auto, using(crate::proofs::Runs::word_to, crate::proofs::Cut::whole_twice, crate::proofs::Cut::whole_equals, crate::proofs::Cut::whole_sign, crate::proofs::Cut::equals_alone, crate::proofs::Cut::equals_at_end))]
pub fn lexeme_end(text: &[u8], start: usize) -> usize
    requires inside { start < length text.now }
    requires begins { skipped (slice_index text.now start) ≡ false }
    ensures within { (start < result) × (result ≤ length text.now) }
    ensures rest { from_place text.now start ≡ part text.now start result ∷ from_place text.now result }
    ensures run { is_word_byte (slice_index text.now start) ≡ true → lexeme_at text.now start ≡ part text.now start result }
{
    let b = text[start];
    let next = start + 1;
    if in_word(b) {
        word_end(text, start)
    } else if b == b'=' && next < text.len() && text[next] == b'=' {
        next + 1
    } else {
        next
    }
}
