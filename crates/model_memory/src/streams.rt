// Numbers to read, and numbers shown.
ghost use Rattle.std.specs.Prelude.{◌≡◌, ◌<◌, [], ◌∷◌, ◌++◌, is_ok, if◌then◌else◌};
ghost use Rattle.std.specs.Vec.Iter.{into_iter_items, into_iter_len};

use crate::stop::Stop;
use std::alloc::Global;
use std::vec::IntoIter;

#[derive(Drop)]
pub struct Streams {
    inputs: IntoIter<u64>,
    outputs: Vec<u64>,
    max_out: u64,
}

impl Streams {
    pub fn new(heap: Global, inputs: Vec<u64>, max_out: u64) -> Self
        ensures inputs { into_iter_items result.inputs ≡ inputs.items }
        ensures outputs { result.outputs.items ≡ [] }
        ensures limit { result.max_out ≡ max_out }
    {
        Streams {
            inputs: inputs.into_iter(),
            outputs: Vec::new(heap),
            max_out,
        }
    }

    // The next number to read, or 0.
    pub fn next(&mut self) -> u64
        ensures value { 0 < into_iter_len self.old.inputs → into_iter_items self.old.inputs ≡ result ∷ into_iter_items self.new.inputs }
        ensures end { into_iter_len self.old.inputs ≡ 0 → (result ≡ 0) × (into_iter_items self.new.inputs ≡ []) }
        ensures shown { self.new.outputs.items ≡ self.old.outputs.items }
    {
        self.inputs.next().unwrap_or(0)
    }

    pub fn show(&mut self, number: u64) -> Result<(), Stop>
        ensures shown { self.new.outputs.items ≡ (if is_ok result then self.old.outputs.items ++ number ∷ [] else self.old.outputs.items) }
    {
        if self.outputs.len() as u64 >= self.max_out {
            return Err(Stop::NoOutput);
        }
        self.outputs.push(number)?;
        Ok(())
    }

    // What was shown.
    pub fn into_shown(self) -> Vec<u64>
        ensures { result.items ≡ self.outputs.items }
    {
        self.outputs
    }
}
