ghost use Rattle.std.specs.Prelude.{◌≡◌, ℕ};
ghost use Rattle.code.specs.Slots.{slot, slot_of};

use crate::instr::Instr;
use crate::slot::Slot;
use lexer::Name;

// By the number of names: a word that stands for a name is made here only.
fn named(op: u64, x: Name) -> Slot
    ensures { result ≡ slot op x.0 0 }
{
    Slot {
        op,
        first: x.0 as u64,
        second: 0,
    }
}

fn two_names(op: u64, x: Name, y: Name) -> Slot
    ensures { result ≡ slot op x.0 y.0 }
{
    Slot {
        op,
        first: x.0 as u64,
        second: y.0 as u64,
    }
}

impl From<Instr> for Slot {
    ghost from_gives = { λ i s. s ≡ slot_of i };

    fn from(instr: Instr) -> Slot {
        // Long, here and in from_slot and listing, since every arm is written.
        match instr {
            Instr::Int => Slot::plain(0),
            Instr::Arg => Slot::plain(1),
            Instr::Apply => Slot::plain(2),
            Instr::Box => Slot::plain(3),
            Instr::Get => Slot::plain(4),
            Instr::Put => Slot::plain(5),
            Instr::If => Slot::plain(6),
            Instr::Else => Slot::plain(7),
            Instr::EndIf => Slot::plain(8),
            Instr::While => Slot::plain(9),
            Instr::Do => Slot::plain(10),
            Instr::EndWhile => Slot::plain(11),
            Instr::Body => Slot::plain(12),
            Instr::EndArm => Slot::plain(13),
            Instr::EndMatch => Slot::plain(14),
            Instr::Give => Slot::plain(15),
            Instr::EndFn => Slot::plain(16),
            Instr::TyInt => Slot::plain(17),
            Instr::TyBox => Slot::plain(18),
            Instr::TyRef => Slot::plain(19),
            Instr::TyMut => Slot::plain(20),
            Instr::Field => Slot::plain(21),
            Instr::Var(x) => named(22, x),
            Instr::Make(x) => named(23, x),
            Instr::Call(x) => named(24, x),
            Instr::Share(x) => named(25, x),
            Instr::Lend(x) => named(26, x),
            Instr::Load(x) => named(27, x),
            Instr::Bind(x) => named(28, x),
            Instr::Assign(x) => named(29, x),
            Instr::Store(x) => named(30, x),
            Instr::Arm(x) => named(31, x),
            Instr::Part(x) => named(32, x),
            Instr::TyData(x) => named(33, x),
            Instr::Ctor(x) => named(34, x),
            Instr::Param(x) => named(35, x),
            Instr::Fn(x) => named(36, x),
            Instr::Data(d, None) => named(37, d),
            Instr::Num(n) => Slot {
                op: 38,
                first: n,
                second: 0,
            },
            Instr::Op(o) => Slot {
                op: 39,
                first: u64::from(o),
                second: 0,
            },
            Instr::Match(w, x) => Slot {
                op: 40,
                first: u64::from(w),
                second: x.0 as u64,
            },
            Instr::Open(x, y) => two_names(41, x, y),
            Instr::Inside(x, y) => two_names(42, x, y),
            Instr::Data(d, Some(last)) => two_names(43, d, last),
        }
    }
}
