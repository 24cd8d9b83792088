//! A law of the definitions, the contract of a function that does nothing.
ghost use Rattle.image.specs.WaitingLaws.{SlotsWaitByPosition};

/// A slot is shown as waiting exactly if it is the place of one of the positions whose commands are listed.
pub fn slots_wait_by_position()
    ensures { SlotsWaitByPosition }
{}
