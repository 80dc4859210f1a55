#![tactic(auto)]

// What a text is told: accepted; no program; refused, with the number of the first function that isn't accepted, counted from 1, or 0
// where something else is wrong; or too few words were lent.
pub enum Told {
    Accepted,
    NoText,
    Refused(usize),
    Little,
}

// How a run came to a stop, with how many numbers were shown: ended, with a number; no room for a box, none for what's under way; all
// turns made; no room in the output. NotThis: what check would not accept, or too few words were lent.
pub enum Halt {
    Ended(u64, usize),
    HeapFull(usize),
    StackFull(usize),
    TurnsUp(usize),
    OutFull(usize),
    NotThis,
}
