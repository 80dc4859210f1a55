// Roots: the values of names and of boxes. A slot is used again when its root has ended; the serial number tells the new root from the old one.
use crate::stop::Stop;
use crate::value::{MOST_LEVELS, Place, RootId, Value};
use std::alloc::Global;

// What is at a root.
#[derive(Drop)]
struct Held {
    serial: u64,
    value: Value,
    // a box's words; 0 for a name's
    words: u64,
}

#[derive(Drop)]
pub struct Memory {
    // a map from serial numbers in place of slots was tried: runs took up to three times as long
    slots: Vec<Option<Held>>,
    free: Vec<usize>,
    made: u64,
}

impl Memory {
    pub fn new(heap: Global) -> Self {
        Memory {
            slots: Vec::new(heap),
            free: Vec::new(heap),
            made: 0,
        }
    }

    // A new root that holds the value.
    pub fn add(&mut self, value: Value, words: u64) -> Result<RootId, Stop> {
        let serial = self.made;
        self.made = serial.checked_add(1).ok_or(Stop::TooDeep)?;
        let held = Some(Held {
            serial,
            value,
            words,
        });
        if let Some(slot) = self.free.pop() {
            if let Some(free) = self.slots.get_mut(slot) {
                *free = held;
                return Ok(RootId { slot, serial });
            }
        }
        let slot = self.slots.len();
        self.slots.push(held)?;
        Ok(RootId { slot, serial })
    }

    fn held(&self, root: RootId) -> Result<&Held, Stop> {
        match self.slots.get(root.slot) {
            Some(Some(held)) if held.serial == root.serial => Ok(held),
            Some(_) | None => Err(Stop::Wrong),
        }
    }

    // What is at the root.
    pub fn whole(&self, root: RootId) -> Result<&Value, Stop> {
        Ok(&self.held(root)?.value)
    }

    // What is at the place.
    pub fn read(&self, place: &Place) -> Result<&Value, Stop> {
        self.whole(place.root)?
            .at(place.path.as_slice())
            .ok_or(Stop::Wrong)
    }

    // The words of a box that is there.
    pub fn words(&self, root: RootId) -> Result<u64, Stop> {
        Ok(self.held(root)?.words)
    }

    // Puts a value at a path from a root, and gives what was there.
    pub fn replace(&mut self, root: RootId, path: &[usize], new: Value) -> Result<Value, Stop> {
        // The same test as in held, for a slot that is changed.
        match self.slots.get_mut(root.slot) {
            Some(Some(held)) if held.serial == root.serial => {
                let old = held.value.replace(path, new)?;
                if held.value.levels() > MOST_LEVELS {
                    return Err(Stop::TooDeep);
                }
                Ok(old)
            }
            Some(_) | None => Err(Stop::Wrong),
        }
    }

    // Takes a name's value away: what was there, a hole now.
    pub fn take(&mut self, root: RootId) -> Result<Value, Stop> {
        self.replace(root, &[], Value::Hole)
    }

    // Ends a root, if it is there: what it held.
    pub fn end(&mut self, root: RootId) -> Result<Value, Stop> {
        let slot = self.slots.get_mut(root.slot).ok_or(Stop::Wrong)?;
        let held = slot
            .take_if(|held| held.serial == root.serial)
            .ok_or(Stop::Wrong)?;
        self.free.push(root.slot)?;
        Ok(held.value)
    }

    pub fn is_live(&self, root: RootId) -> bool {
        self.held(root).is_ok()
    }
}
