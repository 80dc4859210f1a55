#![tactic(auto)]

ghost use Rattle.language.specs.Says.{NeverWrong, NothingLeft, EnoughFuel, MoreFuel};
ghost use Rattle.soundness.specs.Preserved.{InvariantKept};
ghost use Rattle.soundness.specs.References.{ThereTyped, ReferenceValid, NoneIntoFree, NoneBelowFree, ReferencesDown};
ghost use Rattle.soundness.specs.Counterexamples.{RulesNeeded};
ghost use Rattle.soundness.specs.Numbers.{ShownGrows, WordsKept, ShownSmall};

// Each function here is a theorem: its contract is the statement, and there is nothing to compute.

// An accepted program never goes wrong: for every fuel, whatever it is lent, whatever it reads.
pub fn never_wrong() -> u8
    ensures { NeverWrong }
{
    0
}

// An accepted program that ends leaves no live name, no box and no word under way.
pub fn nothing_left() -> u8
    ensures { NothingLeft }
{
    0
}

// With turns counted, some fuel is enough, and so is any greater one; for every program, accepted or not.
pub fn enough_fuel() -> u8
    ensures { EnoughFuel }
{
    0
}

// More fuel doesn't change a result that isn't out of fuel.
pub fn more_fuel() -> u8
    ensures { MoreFuel }
{
    0
}

// Seven programs, one for each rule that cannot be left out: each is refused, and it goes wrong.
pub fn rules_needed() -> u8
    ensures { RulesNeeded }
{
    0
}

// What evaluating each kind of piece keeps, at every fuel: values have their types, references lead to a place of their
// type, what isn't gone is there, every live root is held once.
pub fn invariant_kept() -> u8
    ensures { InvariantKept }
{
    0
}

// Under the invariant, an owned name that isn't gone holds a value of its type.
pub fn there_typed() -> u8
    ensures { ThereTyped }
{
    0
}

// A name that is a reference leads to a live place, where a value of its type is.
pub fn reference_valid() -> u8
    ensures { ReferenceValid }
{
    0
}

// No reference leads into an owned name that is free: what is moved, assigned, opened or taken apart.
pub fn none_into_free() -> u8
    ensures { NoneIntoFree }
{
    0
}

// No reference leads strictly below the place of a free mut: what is written through it.
pub fn none_below_free() -> u8
    ensures { NoneBelowFree }
{
    0
}

// References lead to older entries, so none is left into what ends or is dropped at the top of the stack.
pub fn references_down() -> u8
    ensures { ReferencesDown }
{
    0
}

// What is shown only grows: for every program, every function of the meaning, from every state, also where it stops.
pub fn shown_grows() -> u8
    ensures { ShownGrows }
{
    0
}

// Every number of a program that was read from a text is below 2^64: what each function of the meaning keeps.
pub fn words_kept() -> u8
    ensures { WordsKept }
{
    0
}

// So what such a program gives is below 2^64, and so is what it shows, but for the mark 2^64 of 'get'.
pub fn shown_small() -> u8
    ensures { ShownSmall }
{
    0
}
