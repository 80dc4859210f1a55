// Statements and bodies.
use crate::machine::{Machine, box_of, first_of, reference};
use crate::task::Task;
use model_memory::stop::Stop;
use model_memory::value::Value;
use model_text::tree::{BodyId, ExprId, Name, Span, Stmt, Tail};

impl<'p> Machine<'p> {
    // Runs statements of their own, and then ends their names, down to so many.
    pub fn run_block(&mut self, block: Span, names: usize) -> Result<(), Stop> {
        self.later(Task::EndNames(names))?;
        self.later(Task::Run(block))
    }

    // Runs a body, which gives a value, and then ends its names.
    pub fn run_body(&mut self, id: BodyId, names: usize) -> Result<(), Stop> {
        let body = self.program.nodes.bodies.get(id.0).ok_or(Stop::Wrong)?;
        self.later(Task::EndNames(names))?;
        self.later(Task::Give(id))?;
        self.later(Task::Run(body.block))
    }

    pub fn run(&mut self, block: Span) -> Result<(), Stop> {
        let Some((first, rest)) = first_of(&self.program.nodes.stmts, block)? else {
            return Ok(());
        };
        self.meter.turn()?;
        self.later(Task::Run(rest))?;
        self.statement(first)
    }

    fn statement(&mut self, stmt: Stmt) -> Result<(), Stop> {
        match stmt {
            Stmt::Bind(name, value) => self.after(value, Task::Bind(name)),
            Stmt::Assign(name, value) => self.after(value, Task::Assign(name)),
            Stmt::Store(name, value) => self.after(value, Task::Store(name)),
            Stmt::Put(value) => self.after(value, Task::Show),
            Stmt::If(test, yes, no) => self.after(test, Task::If(yes, no)),
            Stmt::While(test, block) => self.after(test, Task::Test(test, block)),
            Stmt::Match(way, name, alts) => self.match_block(way, name, alts),
            Stmt::Open(name, from) => self.open(name, from),
            Stmt::Inside(name, from) => self.inside(name, from),
        }
    }

    // First an expression, and then what is done with its value.
    fn after(&mut self, value: ExprId, then: Task) -> Result<(), Stop> {
        self.later(then)?;
        self.later(Task::Eval(value))
    }

    pub fn give(&mut self, id: BodyId) -> Result<(), Stop> {
        let body = self.program.nodes.bodies.get(id.0).ok_or(Stop::Wrong)?;
        match body.tail {
            Tail::Give(value) => self.later(Task::Eval(value)),
            Tail::GiveIf(test, yes, no) => self.after(test, Task::GiveIf(yes, no)),
            Tail::GiveMatch(way, name, arms) => self.match_body(way, name, arms),
        }
    }

    pub fn bind_value(&mut self, name: Name) -> Result<(), Stop> {
        let value = self.work.pop()?;
        self.bind(name, value)
    }

    // The new value is put in, and then the old one is dropped.
    pub fn assign(&mut self, name: Name) -> Result<(), Stop> {
        let value = self.work.pop()?;
        let root = self.scope.root_of(name)?;
        let old = self.memory.replace(root, &[], value)?;
        self.work.drop_later(old)
    }

    pub fn store(&mut self, name: Name) -> Result<(), Stop> {
        let value = self.work.pop()?;
        let place = self.target(name)?;
        if let Value::Hole = self.memory.read(&place)? {
            return Err(Stop::Wrong);
        }
        let old = self
            .memory
            .replace(place.root, place.path.as_slice(), value)?;
        self.work.drop_later(old)
    }

    pub fn show(&mut self) -> Result<(), Stop> {
        let number = self.work.pop_number()?;
        self.streams.show(number)
    }

    pub fn choose(&mut self, yes: Span, no: Span) -> Result<(), Stop> {
        let number = self.work.pop_number()?;
        let names = self.scope.len();
        self.run_block(if number == 0 { no } else { yes }, names)
    }

    // Written twice: what runs behind the test is a block there and a body here.
    pub fn choose_body(&mut self, yes: BodyId, no: BodyId) -> Result<(), Stop> {
        let number = self.work.pop_number()?;
        let names = self.scope.len();
        self.run_body(if number == 0 { no } else { yes }, names)
    }

    // Behind a while's test.
    pub fn test(&mut self, test: ExprId, block: Span) -> Result<(), Stop> {
        let number = self.work.pop_number()?;
        if number == 0 {
            return Ok(());
        }
        self.later(Task::Again(test, block))?;
        let names = self.scope.len();
        self.run_block(block, names)
    }

    // Behind a round of while: a turn, and its test again.
    pub fn again(&mut self, test: ExprId, block: Span) -> Result<(), Stop> {
        self.meter.turn()?;
        self.after(test, Task::Test(test, block))
    }

    // let x = open y: the box ends, and the name has what was in it.
    fn open(&mut self, name: Name, from: Name) -> Result<(), Stop> {
        let root = self.scope.root_of(from)?;
        let inner = box_of(self.memory.whole(root)?)?;
        let words = self.memory.words(inner)?;
        let _moved = self.memory.take(root)?;
        let value = self.memory.end(inner)?;
        self.pools.count_out(words);
        self.bind(name, value)
    }

    // let x = inside y: a reference to what is in the box that y points to.
    fn inside(&mut self, name: Name, from: Name) -> Result<(), Stop> {
        let place = self.target(from)?;
        let inner = box_of(self.memory.read(&place)?)?;
        self.bind(name, reference(self.heap, inner))
    }
}
