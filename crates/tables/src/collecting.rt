ghost use Rattle.std.specs.Prelude.{◌≡◌, ℕ, ◌+◌, ◌*◌, ◌<◌, ◌≤◌, length};
ghost use Rattle.code.specs.Words.{code_in, instr_at};
ghost use Rattle.tables.specs.Collect.{tables_of};
ghost use Rattle.tables.specs.Collected.{Collected};
ghost use Rattle.tables.specs.Declares.{Noted, NotedSlot};
ghost use Rattle.tables.specs.Lent.{words_of, Longer, SameLengths, Roomy};
ghost use Rattle.tables.specs.Source.{rows_in};
ghost use Rattle.tables.specs.Tables.{datas_in, entries_in};

use crate::progress::Progress;
use crate::room::Room;
use crate::rows::{Declared, Parameter};
use crate::span::Span;
use crate::tables::Tables;
use code::{Instr, Record, decode};

// Notes what the instruction at a place of the code declares. That the room keeps its lengths is said here and below: each borrows it.
fn note(room: &mut Room, done: Progress, at: usize, instr: Instr) -> Progress
    requires { Longer (words_of room.old) done }
    ensures noted { Noted instr at (words_of room.old) done (words_of room.new) result }
    ensures lengths { SameLengths (words_of room.old) (words_of room.new) }
{
    let mut next = done;
    // Long, since every arm is written.
    match instr {
        Instr::Field => {
            room.fields[done.fields.end] = at as u64;
            next.fields.end += 1;
        }
        Instr::Ctor(name) => {
            Declared {
                name,
                at,
                parts: done.fields,
            }
            .store(room.ctors, done.ctors.end);
            next.ctors.end += 1;
            next.fields.first = done.fields.end;
        }
        Instr::Data(name, _) => {
            Declared {
                name,
                at,
                parts: done.ctors,
            }
            .store(room.datas, done.datas);
            next.datas += 1;
            next.ctors.first = done.ctors.end;
            next.fields.first = done.fields.end;
        }
        Instr::Param(name) => {
            Parameter { name, at }.store(room.params, done.params.end);
            next.params.end += 1;
        }
        Instr::Fn(name) => {
            Declared {
                name,
                at,
                parts: done.params,
            }
            .store(room.fns, done.fns);
            next.fns += 1;
            next.params.first = done.params.end;
        }
        Instr::Num(_) | Instr::Var(_) | Instr::Int | Instr::Op(_) | Instr::Make(_) => {}
        Instr::Call(_) | Instr::Arg | Instr::Apply | Instr::Box | Instr::Share(_) => {}
        Instr::Lend(_) | Instr::Load(_) | Instr::Get | Instr::Bind(_) | Instr::Assign(_) => {}
        Instr::Store(_) | Instr::Put | Instr::If | Instr::Else | Instr::EndIf => {}
        Instr::While | Instr::Do | Instr::EndWhile | Instr::Match(_, _) | Instr::Arm(_) => {}
        Instr::Part(_) | Instr::Body | Instr::EndArm | Instr::EndMatch => {}
        Instr::Open(_, _) | Instr::Inside(_, _) | Instr::Give | Instr::EndFn => {}
        Instr::TyInt | Instr::TyData(_) | Instr::TyBox | Instr::TyRef | Instr::TyMut => {}
    }
    next
}

// Notes what a slot of the code holds.
fn note_slot(code: &[u64], room: &mut Room, done: Progress, at: usize) -> Progress
    requires slot { 3 * at + 2 < length code.now }
    requires room { Longer (words_of room.old) done }
    ensures noted { NotedSlot (instr_at code.now at) at (words_of room.old) done (words_of room.new) result }
    ensures lengths { SameLengths (words_of room.old) (words_of room.new) }
{
    let Some(instr) = decode(code, at) else {
        return done;
    };
    note(room, done, at, instr)
}

// Notes each of the code's instructions.
fn note_all(code: &[u64], size: usize, room: &mut Room) -> Progress
    requires code { size * 3 ≤ length code.now }
    requires room { Roomy (words_of room.old) (rows_in code.now 0 size) size }
    ensures collected { Collected code.now size (words_of room.new) result }
    ensures lengths { SameLengths (words_of room.old) (words_of room.new) }
{
    let mut done = Progress::START;
    // By number: decode takes a slot by it, and each turn writes into lent words.
    for i in 0..size {
        done = note_slot(code, room, done, i);
    }
    done
}

// The tables of the code, of so many instructions: the words lent may be more than these.
pub fn collect<'a>(text: &'a [u8], code: &'a [u64], size: usize, mut room: Room<'a>) -> Tables<'a>
    requires code { size * 3 ≤ length code.now }
    requires room { Roomy (words_of room) (rows_in code.now 0 size) size }
    ensures datas { datas_in result ≡ (tables_of (code_in text.now code.now size)).datas }
    ensures entries { entries_in result ≡ (tables_of (code_in text.now code.now size)).entries }
{
    let done = note_all(code, size, &mut room);
    let Room {
        datas,
        ctors,
        fields,
        fns,
        params,
    } = room;
    Tables {
        text,
        code,
        size,
        done,
        datas,
        ctors,
        fields,
        fns,
        params,
    }
}
