#![tactic(auto)]

ghost use Rattle.steady.specs.Promise.{SteadyAccepted};

// Runs of accepted programs are steady: where a value is written, moved or taken apart nobody of use points inside it, where a
// root ends nobody of use points to it, and what is lent, opened or dropped is there. So a premise of simulation::machine_right
// is met by every program that the rules accept.
pub fn steady_accepted() -> u8
    ensures { SteadyAccepted }
{
    0
}
