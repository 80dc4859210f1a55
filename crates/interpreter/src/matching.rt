// Matches: of statements and of bodies.
use crate::machine::{Machine, nodes_of};
use model_memory::stop::Stop;
use model_memory::value::{Place, Value};
use model_text::tree::{Access, Alt, Arm, Name, Span};

// What a match looks into: its place, its constructor, and how many fields it has.
#[derive(Drop)]
struct Matched {
    place: Place,
    ctor: Name,
    count: usize,
}

// One way of a match.
trait Way {
    fn ctor(&self) -> Name;
}

impl Way for Alt {
    fn ctor(&self) -> Name {
        self.ctor
    }
}

impl Way for Arm {
    fn ctor(&self) -> Name {
        self.ctor
    }
}

// The first of the ways that is for the constructor.
fn find_way<T: Way + Copy>(all: &[T], ways: Span, ctor: Name) -> Result<T, Stop> {
    nodes_of(all, ways)?
        .iter()
        .find(|way| way.ctor() == ctor)
        .copied()
        .ok_or(Stop::Wrong)
}

impl<'p> Machine<'p> {
    fn matched(&self, name: Name) -> Result<Matched, Stop> {
        let place = self.place_of(name)?;
        let (ctor, count) = match self.memory.read(&place)? {
            Value::Data(ctor, _, fields) => (*ctor, fields.len()),
            Value::Number(_) | Value::Box(_) | Value::Reference(_) | Value::Hole => return Err(
                Stop::Wrong,
            ),
        };
        Ok(Matched { place, ctor, count })
    }

    // The parts get names: what was taken apart, or references to it.
    fn bind_parts(&mut self, way: Access, found: Matched, names: Span) -> Result<(), Stop> {
        if names.end.saturating_sub(names.start) != found.count {
            return Err(Stop::Wrong);
        }
        match way {
            Access::Take => self.bind_fields(found.place, names),
            Access::View | Access::Edit => self.bind_references(found.place, names),
        }
    }

    fn bind_references(&mut self, place: Place, names: Span) -> Result<(), Stop> {
        let names = nodes_of(&self.program.nodes.names, names)?;
        for (index, name) in names.iter().enumerate() {
            let part = place.field(index)?;
            self.bind(*name, Value::Reference(part))?;
        }
        Ok(())
    }

    fn bind_fields(&mut self, place: Place, names: Span) -> Result<(), Stop> {
        let names = nodes_of(&self.program.nodes.names, names)?;
        let whole = self
            .memory
            .replace(place.root, place.path.as_slice(), Value::Hole)?;
        let Value::Data(_, _, fields) = whole else {
            return Err(Stop::Wrong);
        };
        for (name, field) in names.iter().zip(fields) {
            self.bind(*name, field)?;
        }
        Ok(())
    }

    pub fn match_block(&mut self, way: Access, name: Name, alts: Span) -> Result<(), Stop> {
        let found = self.matched(name)?;
        let alt = find_way(&self.program.nodes.alts, alts, found.ctor)?;
        let before = self.scope.len();
        self.bind_parts(way, found, alt.names)?;
        self.run_block(alt.block, before)
    }

    // Written twice: what runs behind the names is a block there and a body here.
    pub fn match_body(&mut self, way: Access, name: Name, arms: Span) -> Result<(), Stop> {
        let found = self.matched(name)?;
        let arm = find_way(&self.program.nodes.arms, arms, found.ctor)?;
        let before = self.scope.len();
        self.bind_parts(way, found, arm.names)?;
        self.run_body(arm.body, before)
    }
}
