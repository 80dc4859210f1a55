// A whole run of a text.
use crate::machine::Machine;
use crate::task::{Task, Work};
use model_memory::memory::Memory;
use model_memory::meter::Meter;
use model_memory::pools::Pools;
use model_memory::scope::Scope;
use model_memory::sizes::Sizes;
use model_memory::stop::Stop;
use model_memory::streams::Streams;
use model_text::parse::read;
use std::alloc::Global;
use std::fmt;

// How much a run may use: words for boxes and for what is under way, turns, numbers shown, and tasks that wait for one another.
#[derive(Clone, Copy)]
pub struct Limits {
    pub heap: u64,
    pub stack: u64,
    pub turns: u64,
    pub out: u64,
    pub depth: u64,
}

impl Limits {
    // Large ones.
    pub fn large() -> Self {
        Limits {
            heap: 1 << 40,
            stack: 1 << 40,
            turns: 1 << 60,
            out: 1 << 40,
            depth: 10_000_000,
        }
    }
}

// How much a run used: the peaks of boxes by size, the most words under way, turns.
#[derive(Clone, Copy, Default)]
pub struct Used {
    pub heap: u128,
    pub stack: u64,
    pub turns: u64,
}

// How a run ended, what it showed, and what it used.
#[derive(Drop)]
pub struct Outcome {
    pub end: Result<u64, Stop>,
    pub shown: Vec<u64>,
    pub used: Used,
}

impl<'p> Machine<'p> {
    // Does one task.
    fn step(&mut self, task: Task) -> Result<(), Stop> {
        match task {
            Task::Eval(expr) => self.eval(expr),
            Task::EvalAll(args) => self.eval_all(args),
            Task::Apply(op) => self.apply(op),
            Task::Construct(ctor, height) => self.construct(ctor, height),
            Task::Call(name, height) => self.call(name, height),
            Task::MakeBox => self.make_box(),
            Task::Run(block) => self.run(block),
            Task::Bind(name) => self.bind_value(name),
            Task::Assign(name) => self.assign(name),
            Task::Store(name) => self.store(name),
            Task::Show => self.show(),
            Task::If(yes, no) => self.choose(yes, no),
            Task::Test(test, block) => self.test(test, block),
            Task::Again(test, block) => self.again(test, block),
            Task::Give(body) => self.give(body),
            Task::GiveIf(yes, no) => self.choose_body(yes, no),
            Task::EndNames(down_to) => self.end_names(down_to),
            Task::EndCall(under, base) => {
                self.end_call(under, base);
                Ok(())
            }
            Task::Drop => self.drop_value(),
            Task::EndBox(root, words, under) => self.end_box(root, words, under),
            Task::EndLast(root) => self.end_last(root),
        }
    }

    // Calls main and does what is to be done, until nothing is.
    fn run_main(&mut self) -> Result<u64, Stop> {
        let main = self.program.main.ok_or(Stop::Wrong)?;
        self.call(main, 0)?;
        // a text may run without end, and a loop has to have one: this is one that no run comes to
        for _ in 0..u64::MAX {
            match self.work.next() {
                Some(task) => self.step(task)?,
                None => return self.work.pop_number(),
            }
        }
        Err(Stop::TooDeep)
    }
}

// How it ended, in words.
impl fmt::Display for Outcome {
    fn fmt<W: fmt::Write>(&self, f: &mut fmt::Formatter<W>) -> fmt::Result {
        match self.end {
            Ok(value) => write!(f, "ended {value}"),
            Err(stop) => write!(f, "{stop}"),
        }
    }
}

impl fmt::Display for Used {
    fn fmt<W: fmt::Write>(&self, f: &mut fmt::Formatter<W>) -> fmt::Result {
        let Used { heap, stack, turns } = *self;
        write!(f, "heap={heap} stack={stack} turns={turns}")
    }
}

fn run(heap: Global, text: &[u8], limits: Limits, inputs: Vec<u64>) -> Result<Outcome, Stop> {
    let program = read(heap, text)?;
    let mut machine = Machine {
        heap,
        program: &program,
        sizes: Sizes::new(heap, &program)?,
        memory: Memory::new(heap),
        pools: Pools::new(heap, limits.heap),
        scope: Scope::new(heap),
        meter: Meter::new(limits.stack, limits.turns),
        streams: Streams::new(heap, inputs, limits.out),
        work: Work::new(heap, limits.depth),
    };
    let end = machine.run_main();
    let used = Used {
        heap: machine.pools.peaks(),
        stack: machine.meter.most_under(),
        turns: machine.meter.turns(),
    };
    Ok(Outcome {
        end,
        shown: machine.streams.into_shown(),
        used,
    })
}

// Reads the text and runs it, with the numbers to read.
pub fn run_text(heap: Global, text: &[u8], limits: Limits, inputs: Vec<u64>) -> Outcome {
    run(heap, text, limits, inputs).unwrap_or_else(|stop| Outcome {
        end: Err(stop),
        shown: Vec::new(heap),
        used: Used::default(),
    })
}
