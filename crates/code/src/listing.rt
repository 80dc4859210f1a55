use crate::instr::{Access, Instr, Operator};
use crate::words::decode;
use lexer::{Name, Spelled};
use std::fmt;

impl fmt::Display for Operator {
    fn fmt<W: fmt::Write>(&self, f: &mut fmt::Formatter<W>) -> fmt::Result {
        f.write_str(match self {
            Operator::Add => "+",
            Operator::Sub => "-",
            Operator::Mul => "*",
            Operator::Div => "/",
            Operator::Rem => "%",
            Operator::Equal => "==",
            Operator::Less => "<",
        })
    }
}

impl fmt::Display for Access {
    fn fmt<W: fmt::Write>(&self, f: &mut fmt::Formatter<W>) -> fmt::Result {
        f.write_str(match self {
            Access::Take => "take",
            Access::View => "view",
            Access::Edit => "edit",
        })
    }
}

// An instruction with the text that its names are places of, to be written out.
#[derive(Clone, Copy)]
pub struct Listed<'a> {
    pub text: &'a [u8],
    pub instr: Instr,
}

impl<'a> Listed<'a> {
    fn spelled(&self, name: Name) -> Spelled<'a> {
        Spelled {
            text: self.text,
            name,
        }
    }

    // A word, and names behind it.
    fn named<W: fmt::Write>(
        &self,
        f: &mut fmt::Formatter<W>,
        word: &str,
        names: &[Name],
    ) -> fmt::Result {
        f.write_str(word)?;
        for name in names {
            let name = self.spelled(*name);
            write!(f, " {name}")?;
        }
        Ok(())
    }
}

impl fmt::Display for Listed<'_> {
    fn fmt<W: fmt::Write>(&self, f: &mut fmt::Formatter<W>) -> fmt::Result {
        match self.instr {
            Instr::Num(n) => write!(f, "num {n}"),
            Instr::Var(x) => self.named(f, "var", &[x]),
            Instr::Int => f.write_str("int"),
            Instr::Op(o) => write!(f, "op {o}"),
            Instr::Make(c) => self.named(f, "make", &[c]),
            Instr::Call(x) => self.named(f, "call", &[x]),
            Instr::Arg => f.write_str("arg"),
            Instr::Apply => f.write_str("apply"),
            Instr::Box => f.write_str("box"),
            Instr::Share(x) => self.named(f, "share", &[x]),
            Instr::Lend(x) => self.named(f, "lend", &[x]),
            Instr::Load(x) => self.named(f, "load", &[x]),
            Instr::Get => f.write_str("get"),
            Instr::Bind(x) => self.named(f, "bind", &[x]),
            Instr::Assign(x) => self.named(f, "assign", &[x]),
            Instr::Store(x) => self.named(f, "store", &[x]),
            Instr::Put => f.write_str("put"),
            Instr::If => f.write_str("if"),
            Instr::Else => f.write_str("else"),
            Instr::EndIf => f.write_str("end if"),
            Instr::While => f.write_str("while"),
            Instr::Do => f.write_str("do"),
            Instr::EndWhile => f.write_str("end while"),
            Instr::Match(w, x) => {
                let x = self.spelled(x);
                write!(f, "match {w} {x}")
            }
            Instr::Arm(c) => self.named(f, "arm", &[c]),
            Instr::Part(x) => self.named(f, "part", &[x]),
            Instr::Body => f.write_str("body"),
            Instr::EndArm => f.write_str("end arm"),
            Instr::EndMatch => f.write_str("end match"),
            Instr::Open(x, y) => self.named(f, "open", &[x, y]),
            Instr::Inside(x, y) => self.named(f, "inside", &[x, y]),
            Instr::Give => f.write_str("give"),
            Instr::EndFn => f.write_str("end fn"),
            Instr::TyInt => f.write_str("type int"),
            Instr::TyData(d) => self.named(f, "type", &[d]),
            Instr::TyBox => f.write_str("type box"),
            Instr::TyRef => f.write_str("type ref"),
            Instr::TyMut => f.write_str("type mut"),
            Instr::Field => f.write_str("field"),
            Instr::Ctor(c) => self.named(f, "ctor", &[c]),
            Instr::Data(d, None) => self.named(f, "data", &[d]),
            Instr::Data(d, Some(last)) => self.named(f, "data", &[d, last]),
            Instr::Param(x) => self.named(f, "param", &[x]),
            Instr::Fn(g) => self.named(f, "fn", &[g]),
        }
    }
}

// Slots of code, to be written out with a line for each.
#[derive(Clone, Copy)]
pub struct Listing<'a> {
    pub text: &'a [u8],
    pub words: &'a [u64],
}

impl fmt::Display for Listing<'_> {
    fn fmt<W: fmt::Write>(&self, f: &mut fmt::Formatter<W>) -> fmt::Result {
        for (k, slot) in self.words.chunks_exact(3).enumerate() {
            // A match: both cases write a line.
            match decode(slot, 0) {
                Some(instr) => {
                    let listed = Listed {
                        text: self.text,
                        instr,
                    };
                    writeln!(f, "{k} {listed}")?;
                }
                None => writeln!(f, "{k} ?")?,
            }
        }
        Ok(())
    }
}
