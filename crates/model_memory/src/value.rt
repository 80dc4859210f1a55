// Values as trees, and places in them.
ghost use Rattle.std.specs.Prelude.{◌≡◌, []};

use crate::stop::Stop;
use model_text::tree::Name;
use std::alloc::Global;
use std::mem;

// So many levels a value may have, as `levels` counts them: fields within fields are let go on the host's stack.
pub const MOST_LEVELS: usize = 20_000;

// A root: where it lies, and which of those that lay there it is. No two have one serial number.
#[derive(Clone, Copy)]
pub struct RootId {
    pub slot: usize,
    pub serial: u64,
}

// A root, and the way from it through fields.
#[derive(Clone, Drop)]
pub struct Place {
    pub root: RootId,
    pub path: Vec<usize>,
}

impl Place {
    // The place of a root's whole value.
    pub fn whole(heap: Global, root: RootId) -> Place
        ensures { (result.root ≡ root) × (result.path.items ≡ []) }
    {
        let path = Vec::new(heap);
        Place { root, path }
    }

    // The place of the field of that number.
    pub fn field(&self, index: usize) -> Result<Place, Stop> {
        let mut part = self.clone()?;
        part.path.push(index)?;
        Ok(part)
    }
}

#[derive(Clone, Drop)]
pub enum Value {
    Number(u64),
    // a constructor, how many levels there are below it, and its fields
    Data(Name, usize, Vec<Value>),
    Box(RootId),
    Reference(Place),
    // where something was
    Hole,
}

// The levels below a value. A field counts those before it as well, as where fields were a list: what is too deep is no other.
fn levels_of(fields: &[Value]) -> usize {
    fields
        .iter()
        .enumerate()
        .map(|(above, field)| field.levels().saturating_add(above).saturating_add(1))
        .max()
        .unwrap_or(0)
}

impl Value {
    pub fn data(ctor: Name, fields: Vec<Value>) -> Result<Value, Stop> {
        let below = levels_of(fields.as_slice());
        if below > MOST_LEVELS {
            return Err(Stop::TooDeep);
        }
        Ok(Value::Data(ctor, below, fields))
    }

    // How many levels it has.
    pub fn levels(&self) -> usize {
        match self {
            Value::Data(_, below, _) => below.saturating_add(1),
            Value::Number(_) | Value::Box(_) | Value::Reference(_) | Value::Hole => 1,
        }
    }

    pub fn field(&self, index: usize) -> Option<&Value> {
        match self {
            Value::Data(_, _, fields) => fields.get(index),
            Value::Number(_) | Value::Box(_) | Value::Reference(_) | Value::Hole => None,
        }
    }

    pub fn at(&self, path: &[usize]) -> Option<&Value> {
        path.iter().try_fold(self, |part, index| part.field(*index))
    }

    // Puts a value at the path, and gives what was there.
    pub fn replace(&mut self, path: &[usize], new: Value) -> Result<Value, Stop> {
        let Some((index, rest)) = path.split_first() else {
            return Ok(mem::replace(self, new));
        };
        match self {
            Value::Data(_, below, fields) => {
                let field = fields.get_mut(*index).ok_or(Stop::Wrong)?;
                let old = field.replace(rest, new)?;
                *below = levels_of(fields.as_slice());
                Ok(old)
            }
            Value::Number(_) | Value::Box(_) | Value::Reference(_) | Value::Hole => Err(
                Stop::Wrong,
            ),
        }
    }
}

#[cfg(test)]
mod tests {
    use super::*;
    use std::test::Fail;

    #[test]
    fn clones_what_points(rt: HostRuntime) -> Result<(), Fail> {
        let heap = rt.alloc();
        let root = RootId { slot: 3, serial: 5 };
        let mut down = Vec::new(heap);
        down.push(7)?;
        let place = Place { root, path: down };
        let mut fields = Vec::new(heap);
        fields.push(Value::Number(1))?;
        fields.push(Value::Reference(place))?;
        let twin = Value::Data(Name(2), 2, fields).clone()?;
        let found = match twin.field(1) {
            Some(Value::Reference(place)) => {
                Some((
                    place.root.slot,
                    place.root.serial,
                    place.path.first().copied(),
                ))
            }
            Some(Value::Number(_) | Value::Data(_, _, _) | Value::Box(_) | Value::Hole) | None =>
                None,
        };
        assert_eq!(rt; twin.levels(), 3);
        assert_eq!(rt; found, Some((3, 5, Some(7))));
        Ok(())
    }
}
