//! A law of the definitions, the contract of a function that does nothing.
ghost use Rattle.replay.specs.Memory.{IsPlainUnlessTold};

/// A text of `replay` in which no fill is refused with C3 is the one for memory that never runs out: running out shows,
/// or makes no difference.
pub fn memory_is_told_of()
    ensures { IsPlainUnlessTold }
{}
