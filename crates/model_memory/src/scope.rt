// Names in scope.
use crate::stop::Stop;
use crate::value::RootId;
use model_text::tree::Name;
use std::alloc::Global;
use std::mem;

#[derive(Clone, Copy)]
struct Binding {
    name: Name,
    root: RootId,
}

// The names, the newest last; those of the call that runs begin at `base`.
#[derive(Drop)]
pub struct Scope {
    names: Vec<Binding>,
    base: usize,
}

impl Scope {
    pub fn new(heap: Global) -> Self {
        Scope {
            names: Vec::new(heap),
            base: 0,
        }
    }

    pub fn len(&self) -> usize {
        self.names.len()
    }

    // A call begins: none of the names is in scope in it. Where the caller's begin.
    pub fn enter(&mut self) -> usize {
        mem::replace(&mut self.base, self.names.len())
    }

    // A call ends.
    pub fn leave(&mut self, before: usize) {
        self.base = before;
    }

    pub fn push(&mut self, name: Name, root: RootId) -> Result<(), Stop> {
        self.names.push(Binding { name, root })?;
        Ok(())
    }

    // The newest name ends, if there are more than so many: its root.
    pub fn pop(&mut self, down_to: usize) -> Option<RootId> {
        if self.names.len() <= down_to {
            return None;
        }
        self.names.pop().map(|newest| newest.root)
    }

    // The root of the newest such name of the call that runs.
    pub fn root_of(&self, name: Name) -> Result<RootId, Stop> {
        let in_scope = self.names.get(self.base..).ok_or(Stop::Wrong)?;
        in_scope
            .iter()
            .rfind(|one| one.name == name)
            .map(|one| one.root)
            .ok_or(Stop::Wrong)
    }
}
