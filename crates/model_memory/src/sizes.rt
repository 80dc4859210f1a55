// How many words values and calls take. A number that passes 64 bits is as good as 2^64 - 1: no limit is larger.
use crate::stop::Stop;
use model_text::tree::{Base, Ctor, Data, Function, Name, Program, Type};
use std::alloc::{AllocError, Global};
use std::collections::BTreeMap;

// The sizes of data types by their names, as far as they are known; of several of one name the first one's.
type Known = BTreeMap<Name, Option<u64>>;

#[derive(Drop)]
pub struct Sizes {
    datas: Known,
    // the words of the largest data type; at least 1
    largest: u64,
}

// The first data type that has the constructor.
pub fn home_of(datas: &[Data], ctor: Name) -> Option<&Data> {
    datas
        .iter()
        .find(|one| one.ctors.iter().any(|each| each.name == ctor))
}

// A type's size, where those of the data types before are known.
fn type_size(known: &Known, ty: &Type) -> Option<u64> {
    if !ty.prefixes.is_empty() {
        return Some(1);
    }
    match ty.base {
        Base::Int => Some(1),
        Base::Data(name) => *known.get(&name)?,
    }
}

fn ctor_size(known: &Known, ctor: &Ctor) -> Option<u64> {
    ctor.fields.iter().try_fold(
        0u64,
        |sum, field| Some(sum.saturating_add(type_size(known, field)?)),
    )
}

fn data_size(known: &Known, one: &Data) -> Option<u64> {
    let most = one
        .ctors
        .iter()
        .try_fold(0u64, |most, ctor| Some(most.max(ctor_size(known, ctor)?)))?;
    Some(most.saturating_add(1))
}

// One round: what is known of each data type once all those before are known. The last one comes first: what comes later stays.
fn round(heap: Global, datas: &[Data], known: &Known) -> Result<Known, AllocError> {
    datas
        .iter()
        .rev()
        .map(|one| (one.name, data_size(known, one)))
        .collect(heap)
}

// How many are known.
fn told(known: &Known) -> usize {
    known.values().filter(|size| size.is_some()).count()
}

// Rounds until one tells no more: what is known stays as it is, so the next would tell the same.
fn data_sizes(heap: Global, datas: &[Data]) -> Result<Known, AllocError> {
    let mut known = BTreeMap::new(heap);
    for _ in datas {
        let before = told(&known);
        known = round(heap, datas, &known)?;
        if told(&known) == before {
            break;
        }
    }
    Ok(known)
}

impl Sizes {
    pub fn new(heap: Global, program: &Program) -> Result<Self, Stop> {
        let datas = data_sizes(heap, &program.datas)?;
        let largest = datas.values().filter_map(|size| *size).fold(1, u64::max);
        Ok(Sizes { datas, largest })
    }

    // The words of a constructor's value in a box.
    pub fn of_ctor(&self, program: &Program, ctor: Name) -> u64 {
        home_of(&program.datas, ctor)
            .and_then(|home| *self.datas.get(&home.name)?)
            .unwrap_or(1)
    }

    // The words of a call of the function.
    pub fn frame(&self, function: &Function) -> u64 {
        let params = function.params.len() as u64;
        let places = function.pieces.saturating_add(2).saturating_add(params);
        places
            .saturating_mul(self.largest)
            .saturating_mul(8)
            .saturating_add(64)
    }
}
