// What is still to be done. A machine keeps these on a stack of its own, so that no text uses up the host's stack. They are an enum, and
// no closures: a closure would borrow the machine that keeps it, or would be boxed and handed out.
use crate::machine::number_of;
use model_memory::stop::Stop;
use model_memory::value::{RootId, Value};
use model_text::tree::{BodyId, ExprId, Name, Operator, Span};
use std::alloc::Global;

#[derive(Clone, Copy)]
pub enum Task {
    // an expression's value goes onto the stack of values, those of several one behind the other
    Eval(ExprId),
    EvalAll(Span),
    // the values of an expression's parts are there: two numbers, or those above so many others
    Apply(Operator),
    Construct(Name, usize),
    Call(Name, usize),
    MakeBox,
    // statements
    Run(Span),
    // the value of a statement's expression is there
    Bind(Name),
    Assign(Name),
    Store(Name),
    Show,
    If(Span, Span),
    // behind a while's test, and behind a round
    Test(ExprId, Span),
    Again(ExprId, Span),
    // what a body gives, behind its statements
    Give(BodyId),
    GiveIf(BodyId, BodyId),
    // names end, down to so many
    EndNames(usize),
    // a call ends: the words under way and the first name in scope before it
    EndCall(u64, usize),
    // the value that was left last is dropped
    Drop,
    // a box ends, behind what was in it: its words, and the words under way before it
    EndBox(RootId, u64, u64),
    // a last function has ended: where the value is that it was called for
    EndLast(RootId),
}

#[derive(Drop)]
pub struct Work {
    tasks: Vec<Task>,
    // what expressions gave
    values: Vec<Value>,
    // what the tasks Drop are to drop, the next one last. Tasks that held their values were tried: calls took up to 1.7 times as long
    doomed: Vec<Value>,
    // so many tasks may wait for one another
    depth: u64,
}

impl Work {
    pub fn new(heap: Global, depth: u64) -> Self {
        Work {
            tasks: Vec::new(heap),
            values: Vec::new(heap),
            doomed: Vec::new(heap),
            depth,
        }
    }

    pub fn later(&mut self, task: Task) -> Result<(), Stop> {
        if self.tasks.len() as u64 >= self.depth {
            return Err(Stop::TooDeep);
        }
        self.tasks.push(task)?;
        Ok(())
    }

    pub fn next(&mut self) -> Option<Task> {
        self.tasks.pop()
    }

    // A value is to be dropped next.
    pub fn drop_later(&mut self, value: Value) -> Result<(), Stop> {
        self.doomed.push(value)?;
        self.later(Task::Drop)
    }

    pub fn pop_doomed(&mut self) -> Result<Value, Stop> {
        self.doomed.pop().ok_or(Stop::Wrong)
    }

    pub fn height(&self) -> usize {
        self.values.len()
    }

    pub fn push(&mut self, value: Value) -> Result<(), Stop> {
        self.values.push(value)?;
        Ok(())
    }

    pub fn push_number(&mut self, number: u64) -> Result<(), Stop> {
        self.push(Value::Number(number))
    }

    pub fn pop(&mut self) -> Result<Value, Stop> {
        self.values.pop().ok_or(Stop::Wrong)
    }

    pub fn pop_number(&mut self) -> Result<u64, Stop> {
        number_of(&self.pop()?)
    }

    // The values above the height, in their order.
    pub fn above(&mut self, height: usize) -> Result<Vec<Value>, Stop> {
        Ok(self.values.split_off(height.min(self.values.len()))?)
    }
}
