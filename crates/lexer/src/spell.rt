ghost use Rattle.std.specs.Prelude.{◌≡◌, drop};
ghost use Rattle.language.specs.Base.{same};
ghost use Rattle.lexer.specs.Spelling.{spelling};

use crate::name::Name;
use crate::scan::{in_word, word_length};
use std::fmt;

// What is left of the text from a name on: nothing if it lies behind the end.
fn from_name(text: &[u8], name: Name) -> &[u8]
    ensures { result.now ≡ drop name.0 text.now }
{
    text.get(name.0..).unwrap_or(&[])
}

// Whether two names are spelled the same. It looks at no more bytes than the shorter one has, and one more.
#[tactic(auto, using(crate::proofs::Same::same_refl))]
pub fn same_name(text: &[u8], a: Name, b: Name) -> bool
    ensures { result ≡ same (spelling text.now a) (spelling text.now b) }
{
    if a == b {
        return true;
    }
    let bytes = from_name(text, a).iter().take_while(|x| in_word(**x));
    bytes.eq(from_name(text, b).iter().take_while(|y| in_word(**y)))
}

// The bytes of a name.
#[tactic(auto, using(crate::proofs::Runs::run_front))]
pub fn name_bytes(text: &[u8], name: Name) -> &[u8]
    ensures { result.now ≡ spelling text.now name }
{
    let bytes = from_name(text, name);
    &bytes[..word_length(bytes)]
}

// A name with the text that it is a place of, to be written out.
#[derive(Clone, Copy)]
pub struct Spelled<'a> {
    pub text: &'a [u8],
    pub name: Name,
}

impl fmt::Display for Spelled<'_> {
    fn fmt<W: fmt::Write>(&self, f: &mut fmt::Formatter<W>) -> fmt::Result {
        for b in name_bytes(self.text, self.name) {
            let letter = char::from(*b);
            write!(f, "{letter}")?;
        }
        Ok(())
    }
}
