// Expressions, and calls.
use crate::machine::{Machine, first_of, function_named, number_of, reference};
use crate::task::Task;
use model_memory::arith::worked;
use model_memory::stop::Stop;
use model_memory::value::Value;
use model_text::tree::{Expr, ExprId, Function, Name, Operator, Span};

impl<'p> Machine<'p> {
    pub fn eval(&mut self, id: ExprId) -> Result<(), Stop> {
        let height = self.work.height();
        let expr = self.program.nodes.exprs.get(id.0).ok_or(Stop::Wrong)?;
        match *expr {
            Expr::Number(k) => self.work.push_number(k),
            Expr::Variable(name) => self.use_name(name),
            Expr::Binary(op, left, right) => self.eval_both(op, left, right),
            Expr::Construct(ctor, args) => self.eval_args(Task::Construct(ctor, height), args),
            Expr::Boxed(inner) => {
                self.later(Task::MakeBox)?;
                self.later(Task::Eval(inner))
            }
            Expr::Call(name, args) => self.eval_args(Task::Call(name, height), args),
            Expr::Share(name) => self.share(name),
            Expr::Lend(name) => self.lend(name),
            Expr::Load(name) => self.load(name),
            Expr::Get => {
                let number = self.streams.next();
                self.work.push_number(number)
            }
        }
    }

    fn eval_both(&mut self, op: Operator, left: ExprId, right: ExprId) -> Result<(), Stop> {
        self.later(Task::Apply(op))?;
        self.later(Task::Eval(right))?;
        self.later(Task::Eval(left))
    }

    fn eval_args(&mut self, then: Task, args: Span) -> Result<(), Stop> {
        self.later(then)?;
        self.later(Task::EvalAll(args))
    }

    pub fn eval_all(&mut self, args: Span) -> Result<(), Stop> {
        let Some((first, rest)) = first_of(&self.program.nodes.args, args)? else {
            return Ok(());
        };
        self.later(Task::EvalAll(rest))?;
        self.later(Task::Eval(first))
    }

    // A name as a value: a number or a reference is copied, else it is moved away.
    fn use_name(&mut self, name: Name) -> Result<(), Stop> {
        let root = self.scope.root_of(name)?;
        let value = match self.memory.whole(root)? {
            Value::Number(k) => Value::Number(*k),
            Value::Reference(place) => Value::Reference(place.clone()?),
            Value::Data(_, _, _) | Value::Box(_) => self.memory.take(root)?,
            Value::Hole => return Err(Stop::Wrong),
        };
        self.work.push(value)
    }

    fn share(&mut self, name: Name) -> Result<(), Stop> {
        let place = self.place_of(name)?;
        self.work.push(Value::Reference(place))
    }

    fn lend(&mut self, name: Name) -> Result<(), Stop> {
        let root = self.scope.root_of(name)?;
        self.work.push(reference(self.heap, root))
    }

    fn load(&mut self, name: Name) -> Result<(), Stop> {
        let place = self.target(name)?;
        let number = number_of(self.memory.read(&place)?)?;
        self.work.push_number(number)
    }

    pub fn apply(&mut self, op: Operator) -> Result<(), Stop> {
        let y = self.work.pop_number()?;
        let x = self.work.pop_number()?;
        self.work.push_number(worked(op, x, y))
    }

    // The values above the height, as fields.
    pub fn construct(&mut self, ctor: Name, height: usize) -> Result<(), Stop> {
        let fields = self.work.above(height)?;
        self.work.push(Value::data(ctor, fields)?)
    }

    pub fn make_box(&mut self) -> Result<(), Stop> {
        let value = self.work.pop()?;
        let words = match &value {
            Value::Data(ctor, _, _) => self.sizes.of_ctor(self.program, *ctor),
            Value::Number(_) | Value::Box(_) | Value::Reference(_) | Value::Hole => 1,
        };
        self.pools.count_in(words)?;
        let root = self.memory.add(value, words)?;
        self.work.push(Value::Box(root))
    }

    // Calls a function with the values above the height.
    pub fn call(&mut self, name: Name, height: usize) -> Result<(), Stop> {
        let arguments = self.work.above(height)?;
        let function = function_named(self.program, name)?;
        self.enter(function, arguments)
    }

    // A call: a turn, its words, its parameters, its body.
    pub fn enter(&mut self, function: &Function, arguments: Vec<Value>) -> Result<(), Stop> {
        self.meter.turn()?;
        let words = self.sizes.frame(function);
        let under = self.meter.go_under(words)?;
        let base = self.scope.enter();
        self.later(Task::EndCall(under, base))?;
        self.bind_params(function, arguments)
    }

    fn bind_params(&mut self, function: &Function, arguments: Vec<Value>) -> Result<(), Stop> {
        if arguments.len() != function.params.len() {
            return Err(Stop::Wrong);
        }
        let names = self.scope.len();
        for (param, value) in function.params.iter().zip(arguments) {
            self.bind(param.name, value)?;
        }
        self.run_body(function.body, names)
    }
}
