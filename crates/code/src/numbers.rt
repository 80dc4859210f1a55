ghost use Rattle.std.specs.Prelude.{◌≡◌};
ghost use Rattle.std.specs.Result.{result_ok};
ghost use Rattle.code.specs.Means.{op_number};
ghost use Rattle.code.specs.Slots.{access_number, operator_held, access_held};

use crate::instr::{Access, Operator};
use crate::no_instr::NoInstr;

impl From<Operator> for u64 {
    ghost from_gives = { λ o n. n ≡ op_number o };

    fn from(o: Operator) -> u64 {
        o as u64
    }
}

impl TryFrom<u64> for Operator {
    type Error = NoInstr;

    ghost try_from_gives = { λ n r. result_ok r ≡ operator_held n };

    fn try_from(n: u64) -> Result<Operator, NoInstr> {
        match n {
            0 => Ok(Operator::Add),
            1 => Ok(Operator::Sub),
            2 => Ok(Operator::Mul),
            3 => Ok(Operator::Div),
            4 => Ok(Operator::Rem),
            5 => Ok(Operator::Equal),
            6 => Ok(Operator::Less),
            _ => Err(NoInstr),
        }
    }
}

impl From<Access> for u64 {
    ghost from_gives = { λ w n. n ≡ access_number w };

    fn from(w: Access) -> u64 {
        w as u64
    }
}

impl TryFrom<u64> for Access {
    type Error = NoInstr;

    ghost try_from_gives = { λ n r. result_ok r ≡ access_held n };

    fn try_from(n: u64) -> Result<Access, NoInstr> {
        match n {
            0 => Ok(Access::Take),
            1 => Ok(Access::View),
            2 => Ok(Access::Edit),
            _ => Err(NoInstr),
        }
    }
}
