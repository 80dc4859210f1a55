ghost use Rattle.std.specs.Prelude.{◌≡◌, ◌<◌, ◌≤◌};
ghost use Rattle.types.specs.declared.ty.Outer.TheVariants.{Plain};
ghost use Rattle.tables.specs.Index.{all_in};
ghost use Rattle.tables.specs.Known.{the_field};
ghost use Rattle.tables.specs.Tables.{code_from, the_ctor, the_param, type_in, spelled, data_of, ctor_of, head_of, entry_of};

use crate::refs::{CtorRef, DataRef, FnRef};
use crate::rows::{Declared, Parameter};
use crate::span::Span;
use crate::tables::Tables;
use code::Record;
use lexer::Name;
use types::ValueType;

impl DataRef<'_> {
    pub fn name(self) -> Name
        ensures { spelled self.entry.tables result ≡ (data_of self.entry).name }
    {
        Declared::load(self.tables.datas, self.number).name
    }

    pub fn ctors(self) -> Span
        ensures is { (data_of self.entry).ctors ≡ all_in (the_ctor self.entry.tables) result }
        ensures within { result.end ≤ self.entry.tables.done.ctors.end }
    {
        Declared::load(self.tables.datas, self.number).parts
    }
}

impl CtorRef<'_> {
    pub fn name(self) -> Name
        ensures { spelled self.entry.tables result ≡ (ctor_of self.entry).name }
    {
        Declared::load(self.tables.ctors, self.number).name
    }

    pub fn fields(self) -> Span
        ensures is { (ctor_of self.entry).fields ≡ all_in (the_field self.entry.tables) result }
        ensures within { result.end ≤ self.entry.tables.done.fields.end }
    {
        Declared::load(self.tables.ctors, self.number).parts
    }
}

impl FnRef<'_> {
    pub fn params(self) -> Span
        ensures is { (head_of self.entry).params ≡ all_in (the_param self.entry.tables) result }
        ensures within { result.end ≤ self.entry.tables.done.params.end }
    {
        Declared::load(self.tables.fns, self.number).parts
    }

    // Plain and without boxes, here and below: what `ValueType::written` promises is passed on.
    // The type of what it gives.
    pub fn gives(self) -> ValueType
        ensures is { type_in self.entry.tables result ≡ (head_of self.entry).ret }
        ensures plain { result.outer ≡ Plain }
        ensures boxes { result.boxes ≡ 0 }
    {
        ValueType::written(Declared::load(self.tables.fns, self.number).at)
    }

    // Where its body begins in the code.
    pub fn body(self) -> usize
        ensures is { code_from self.entry.tables result ≡ (entry_of self.entry).code }
        ensures within { result ≤ self.entry.tables.size }
    {
        Declared::load(self.tables.fns, self.number).at + 1
    }
}

impl Tables<'_> {
    // The type of the field with a number.
    pub fn field_type(self, number: usize) -> ValueType
        requires { number < self.done.fields.end }
        ensures is { type_in self.entry result ≡ the_field self.entry number }
        ensures plain { result.outer ≡ Plain }
        ensures boxes { result.boxes ≡ 0 }
    {
        ValueType::written(self.fields[number] as usize)
    }

    // The name and the type of the parameter with a number.
    pub fn param_name(self, number: usize) -> Name
        requires { number < self.done.params.end }
        ensures { spelled self.entry result ≡ (the_param self.entry number).name }
    {
        Parameter::load(self.params, number).name
    }

    pub fn param_type(self, number: usize) -> ValueType
        requires { number < self.done.params.end }
        ensures is { type_in self.entry result ≡ (the_param self.entry number).ty }
        ensures plain { result.outer ≡ Plain }
        ensures boxes { result.boxes ≡ 0 }
    {
        ValueType::written(Parameter::load(self.params, number).at)
    }
}
