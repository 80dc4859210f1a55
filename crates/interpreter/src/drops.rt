// Names end, and values are dropped.
use crate::machine::{Machine, function_named, reference};
use crate::task::Task;
use model_memory::sizes::home_of;
use model_memory::stop::Stop;
use model_memory::value::{RootId, Value};
use model_text::tree::{Name, Program};

// The last function of the constructor's data type, if it has one.
fn last_of(program: &Program, ctor: Name) -> Result<Option<Name>, Stop> {
    Ok(home_of(&program.datas, ctor).ok_or(Stop::Wrong)?.last)
}

impl<'p> Machine<'p> {
    // The newest name ends, down to so many: what it still holds is dropped.
    pub fn end_names(&mut self, down_to: usize) -> Result<(), Stop> {
        let Some(root) = self.scope.pop(down_to) else {
            return Ok(());
        };
        self.later(Task::EndNames(down_to))?;
        let value = self.memory.end(root)?;
        self.work.drop_later(value)
    }

    // A call ends: its value stays.
    pub fn end_call(&mut self, under: u64, base: usize) {
        self.meter.come_back(under);
        self.scope.leave(base);
    }

    pub fn drop_value(&mut self) -> Result<(), Stop> {
        match self.work.pop_doomed()? {
            Value::Number(_) | Value::Reference(_) | Value::Hole => Ok(()),
            Value::Box(root) => self.drop_box(root),
            Value::Data(ctor, below, fields) => match last_of(self.program, ctor)? {
                None => self.drop_all(fields),
                Some(last) => self.call_last(last, Value::Data(ctor, below, fields)),
            },
        }
    }

    // Eight words are under way while what is in the box is dropped.
    fn drop_box(&mut self, root: RootId) -> Result<(), Stop> {
        let inner = self.memory.whole(root)?.clone()?;
        let words = self.memory.words(root)?;
        let under = self.meter.go_under(8)?;
        self.later(Task::EndBox(root, words, under))?;
        self.work.drop_later(inner)
    }

    pub fn end_box(&mut self, root: RootId, words: u64, under: u64) -> Result<(), Stop> {
        if self.memory.is_live(root) {
            let _inner = self.memory.end(root)?;
        }
        self.pools.count_out(words);
        self.meter.come_back(under);
        Ok(())
    }

    // A last function is called with a value that has a root of its own.
    fn call_last(&mut self, last: Name, value: Value) -> Result<(), Stop> {
        let function = function_named(self.program, last)?;
        let root = self.memory.add(value, 0)?;
        self.later(Task::EndLast(root))?;
        let mut arguments = Vec::new(self.heap);
        arguments.push(reference(self.heap, root))?;
        self.enter(function, arguments)
    }

    // Behind a last function: the fields are dropped, as it left them.
    pub fn end_last(&mut self, root: RootId) -> Result<(), Stop> {
        let _given = self.work.pop()?;
        match self.memory.end(root)? {
            Value::Data(_, _, fields) => self.drop_all(fields),
            Value::Number(_) | Value::Box(_) | Value::Reference(_) | Value::Hole => Ok(()),
        }
    }

    // The fields are dropped, the first one first: so the last one is left first.
    fn drop_all(&mut self, fields: Vec<Value>) -> Result<(), Stop> {
        for value in fields.into_iter().rev() {
            self.work.drop_later(value)?;
        }
        Ok(())
    }
}
