ghost use Rattle.std.specs.Prelude.{◌≡◌, ℕ, ◌+◌, ◌*◌, ◌<◌, List, [], ◌∷◌, ◌++◌, length};
ghost use Rattle.code.specs.Instr.{i_if, i_while};
ghost use Rattle.checker.specs.Frames.{Ctx};
ghost use Rattle.checker.specs.Marks.{State2, Mark, rest, names_of, scope as Scope};
ghost use Rattle.checker.specs.Machine.{exec2};
ghost use Rattle.checker.specs.Stands.{Decls, lent, lent_in, Stands, Steps, Left, Is, Gapped, whole, tops, below};

use crate::frames::Frame;
use crate::state::{Rule, Source, State, Words};
use crate::value::is_int;
use code::Record;
use types::ValueType;

// A frame more; the value is let go.
fn begin(words: &mut Words<'_>, at: &mut State, frame: Frame)
    requires { 10 * at.old.frames + 9 < length words.old.frames.now }
    ensures { (d : Decls) (text code : List ℕ) (s : State2) (k : Mark) → Stands d (lent_in text code words.old) at.old s → Is d text code words.old.args.now words.old.seen.now words.old.ends.now (tops at.old) frame k s.frames → below frame (tops at.old) ≡ tops at.old → names_of (k ∷ s.frames) ≡ Scope s → whole (k ∷ s.frames) ≡ s.log ++ whole s.frames → Gapped words.old.gaps.now at.old.gaps (k ∷ s.frames) → Stands d (lent_in text code words.new) at.new (rest [] [] (k ∷ s.frames)) }
{
    frame.store(words.frames, at.frames);
    at.frames += 1;
    at.args = at.base;
    at.ty = ValueType::int();
}

// Behind the test of an if.
pub fn begin_if(source: &Source<'_>, words: &mut Words<'_>, at: &mut State) -> Result<(), Rule>
    requires { 10 * at.old.frames + 9 < length words.old.frames.now }
    ensures { (d : Decls) (p : Ctx) (s : State2) → Stands d (lent source.now words.old) at.old s → Steps d (lent source.now words.new) at.new (exec2 p i_if s) result }
{
    if !is_int(source.code, at.ty) {
        return Err(Rule::NotInt);
    }
    let frame = Frame::Then(at.names, at.log);
    begin(words, at, frame);
    Ok(())
}

// Before the test of a while.
pub fn begin_while(words: &mut Words<'_>, at: &mut State)
    requires { 10 * at.old.frames + 9 < length words.old.frames.now }
    ensures { (d : Decls) (text code : List ℕ) (p : Ctx) (s : State2) → Stands d (lent_in text code words.old) at.old s → Left d (lent_in text code words.new) at.new (exec2 p i_while s) }
{
    let frame = Frame::Test(at.names, at.log);
    begin(words, at, frame);
}
