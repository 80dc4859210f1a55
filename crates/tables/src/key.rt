ghost use Rattle.std.specs.Prelude.{◌≡◌, ℕ, List};
ghost use Rattle.language.specs.Base.{Lexeme, same};
ghost use Rattle.lexer.specs.Spelling.{spelling};

use lexer::{Name, name_bytes, same_name};

// What a row is looked up by: a name of the text, or a word.
pub trait Key: Copy {
    // its spelling, in a text
    ghost spelled: { List ℕ → Self → Lexeme };

    // Whether that name is spelled so.
    fn names(self, text: &[u8], name: Name) -> bool
        ensures { result ≡ same (spelling text.now name) (spelled text.now self) };
}

impl Key for Name {
    ghost spelled = { spelling };

    fn names(self, text: &[u8], name: Name) -> bool {
        same_name(text, name, self)
    }
}

impl Key for &[u8] {
    ghost spelled = { λ _ word. word.now };

    fn names(self, text: &[u8], name: Name) -> bool {
        name_bytes(text, name) == self
    }
}
