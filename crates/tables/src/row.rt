ghost use Rattle.std.specs.Prelude.{◌≡◌};
ghost use Rattle.lexer.specs.declared.name.Name.{Name as Spelled};

use code::Record;
use lexer::Name;

// A kind of row of a table in lent words: it has a name.
pub trait Row: Record {
    ghost title: { Self → Spelled };

    fn name(self) -> Name
        ensures { result ≡ title self };
}
