// The machine: memory, names in scope, what is under way, and the single steps that all the rest is made of.
use crate::task::{Task, Work};
use model_memory::memory::Memory;
use model_memory::meter::Meter;
use model_memory::pools::Pools;
use model_memory::scope::Scope;
use model_memory::sizes::Sizes;
use model_memory::stop::Stop;
use model_memory::streams::Streams;
use model_memory::value::{Place, RootId, Value};
use model_text::tree::{Function, Name, Program, Span};
use std::alloc::Global;

#[derive(Drop)]
pub struct Machine<'p> {
    pub heap: Global,
    pub program: &'p Program,
    pub sizes: Sizes,
    pub memory: Memory,
    pub pools: Pools,
    pub scope: Scope,
    pub meter: Meter,
    pub streams: Streams,
    pub work: Work,
}

// The first function of that name.
pub fn function_named(program: &Program, name: Name) -> Result<&Function, Stop> {
    program
        .functions
        .iter()
        .find(|one| one.name == name)
        .ok_or(Stop::Wrong)
}

// The nodes of a span.
pub fn nodes_of<T>(all: &[T], span: Span) -> Result<&[T], Stop> {
    all.get(span.start..span.end).ok_or(Stop::Wrong)
}

// The first node of a span, and the span behind it; nothing where the span is empty.
pub fn first_of<T: Copy>(all: &[T], span: Span) -> Result<Option<(T, Span)>, Stop> {
    if span.start >= span.end {
        return Ok(None);
    }
    let first = all.get(span.start).copied().ok_or(Stop::Wrong)?;
    let rest = Span {
        start: span.start + 1,
        end: span.end,
    };
    Ok(Some((first, rest)))
}

// A reference to a root's whole value.
pub fn reference(heap: Global, root: RootId) -> Value {
    Value::Reference(Place::whole(heap, root))
}

// The number that a value is.
pub fn number_of(value: &Value) -> Result<u64, Stop> {
    match value {
        Value::Number(k) => Ok(*k),
        Value::Data(_, _, _) | Value::Box(_) | Value::Reference(_) | Value::Hole => Err(
            Stop::Wrong,
        ),
    }
}

// The root of the box that a value is.
pub fn box_of(value: &Value) -> Result<RootId, Stop> {
    match value {
        Value::Box(root) => Ok(*root),
        Value::Number(_) | Value::Data(_, _, _) | Value::Reference(_) | Value::Hole => Err(
            Stop::Wrong,
        ),
    }
}

impl<'p> Machine<'p> {
    pub fn later(&mut self, task: Task) -> Result<(), Stop> {
        self.work.later(task)
    }

    // A new name, with a root of its own.
    pub fn bind(&mut self, name: Name, value: Value) -> Result<(), Stop> {
        let root = self.memory.add(value, 0)?;
        self.scope.push(name, root)
    }

    // Where a name's value is, or where it points to.
    pub fn place_of(&self, name: Name) -> Result<Place, Stop> {
        let root = self.scope.root_of(name)?;
        match self.memory.whole(root)? {
            Value::Reference(place) => Ok(place.clone()?),
            Value::Number(_) | Value::Data(_, _, _) | Value::Box(_) | Value::Hole => Ok(
                Place::whole(self.heap, root),
            ),
        }
    }

    // The place that a name's value, a reference, points to. Apart from place_of in what a name with a value of its own is: nothing here, its
    // place there.
    pub fn target(&self, name: Name) -> Result<Place, Stop> {
        let root = self.scope.root_of(name)?;
        match self.memory.whole(root)? {
            Value::Reference(place) => Ok(place.clone()?),
            Value::Number(_) | Value::Data(_, _, _) | Value::Box(_) | Value::Hole => Err(
                Stop::Wrong,
            ),
        }
    }
}
