//! Laws of what stands in memory, for whoever is a command queue.
ghost use Rattle.hardware_queue.specs.Standing.{StandsOnceWritten, StandsOnceOverwritten, StandsOnceShown};

use qindex::indexes_tell_place_and_wrap_bit;

/// What the hardware may still read is what it was shown, except where that was written over. It stays so whatever the
/// owner of the queue does. It does nothing.
pub fn memory_stands()
    ensures written { StandsOnceWritten }
    ensures overwritten { StandsOnceOverwritten }
    ensures shown { StandsOnceShown }
{
    indexes_tell_place_and_wrap_bit();
}
