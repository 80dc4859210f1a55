ghost use Rattle.std.specs.Prelude.{◌≡◌};
ghost use Rattle.lexer.specs.Spelling.{spelling};
ghost use Rattle.names.specs.Hash.{hash};

use lexer::{Name, name_bytes};

// FNV-1a in 64 bits: where a hash begins, and what each byte multiplies it by.
const BASIS: u64 = 14695981039346656037;

const PRIME: u64 = 1099511628211;

// A number that is the same for names of one spelling, and mostly different for others.
pub fn hash_of(text: &[u8], name: Name) -> u64
    ensures { result ≡ hash 14695981039346656037 (spelling text.now name) }
{
    name_bytes(text, name)
        .iter()
        .fold(BASIS, |h, b| (h ^ u64::from(*b)).wrapping_mul(PRIME))
}
