ghost use Rattle.std.specs.Prelude.{◌≡◌};
ghost use Rattle.types.specs.Numbers.{outer_in, outer_number};

use crate::ty::Outer;

impl From<Outer> for u64 {
    ghost from_gives = { λ o n. n ≡ outer_number o };

    fn from(outer: Outer) -> u64 {
        outer as u64
    }
}

impl From<u64> for Outer {
    ghost from_gives = { λ n o. o ≡ outer_in n };

    fn from(number: u64) -> Outer {
        // By number, since it lies in lent words.
        match number {
            1 => Outer::Ref,
            2 => Outer::Mut,
            _ => Outer::Plain,
        }
    }
}
