ghost use Rattle.std.specs.Prelude.{◌≡◌};
ghost use Rattle.std.specs.Result.{result_ok};
ghost use Rattle.code.specs.Slots.{held, plain_held, named_held, other_held};

use crate::instr::{Access, Instr, Operator};
use crate::no_instr::NoInstr;
use crate::slot::Slot;
use lexer::Name;

fn plain_held(op: u64) -> Result<Instr, NoInstr>
    ensures { result_ok result ≡ plain_held op }
{
    match op {
        0 => Ok(Instr::Int),
        1 => Ok(Instr::Arg),
        2 => Ok(Instr::Apply),
        3 => Ok(Instr::Box),
        4 => Ok(Instr::Get),
        5 => Ok(Instr::Put),
        6 => Ok(Instr::If),
        7 => Ok(Instr::Else),
        8 => Ok(Instr::EndIf),
        9 => Ok(Instr::While),
        10 => Ok(Instr::Do),
        11 => Ok(Instr::EndWhile),
        12 => Ok(Instr::Body),
        13 => Ok(Instr::EndArm),
        14 => Ok(Instr::EndMatch),
        15 => Ok(Instr::Give),
        16 => Ok(Instr::EndFn),
        17 => Ok(Instr::TyInt),
        18 => Ok(Instr::TyBox),
        19 => Ok(Instr::TyRef),
        20 => Ok(Instr::TyMut),
        21 => Ok(Instr::Field),
        _ => Err(NoInstr),
    }
}

fn named_held(op: u64, x: Name) -> Result<Instr, NoInstr>
    ensures { result_ok result ≡ named_held op x }
{
    match op {
        22 => Ok(Instr::Var(x)),
        23 => Ok(Instr::Make(x)),
        24 => Ok(Instr::Call(x)),
        25 => Ok(Instr::Share(x)),
        26 => Ok(Instr::Lend(x)),
        27 => Ok(Instr::Load(x)),
        28 => Ok(Instr::Bind(x)),
        29 => Ok(Instr::Assign(x)),
        30 => Ok(Instr::Store(x)),
        31 => Ok(Instr::Arm(x)),
        32 => Ok(Instr::Part(x)),
        33 => Ok(Instr::TyData(x)),
        34 => Ok(Instr::Ctor(x)),
        35 => Ok(Instr::Param(x)),
        36 => Ok(Instr::Fn(x)),
        37 => Ok(Instr::Data(x, None)),
        _ => Err(NoInstr),
    }
}

fn other_held(op: u64, first: u64, second: u64) -> Result<Instr, NoInstr>
    ensures { result_ok result ≡ other_held op first second }
{
    let a = Name(first as usize);
    let b = Name(second as usize);
    match op {
        38 => Ok(Instr::Num(first)),
        39 => Ok(Instr::Op(Operator::try_from(first)?)),
        40 => Ok(Instr::Match(Access::try_from(first)?, b)),
        41 => Ok(Instr::Open(a, b)),
        42 => Ok(Instr::Inside(a, b)),
        43 => Ok(Instr::Data(a, Some(b))),
        _ => Err(NoInstr),
    }
}

// The instruction that the slot holds, if it holds one.
impl TryFrom<Slot> for Instr {
    type Error = NoInstr;

    ghost try_from_gives = { λ s r. result_ok r ≡ held s };

    fn try_from(slot: Slot) -> Result<Instr, NoInstr> {
        if slot.op < 22 {
            plain_held(slot.op)
        } else if slot.op < 38 {
            named_held(slot.op, Name(slot.first as usize))
        } else {
            other_held(slot.op, slot.first, slot.second)
        }
    }
}
