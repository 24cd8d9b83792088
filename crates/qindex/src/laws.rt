//! Laws of the definitions. Each is the contract of a function that does nothing.
ghost use Rattle.qindex.specs.Laws.{IndexesArePlaceAndWrapBit, IndexesTellPlaceAndWrapBit, SlotsAreApart, WrapBitsTurnByLap, IndexesTellTheQueue, QueuesHaveAControl, WordsSayTheirControl, ControlsHaveTheirWord, OrCloses, OrSetsBit31Alone, XorAdvances, XorTurnsConsAlone};

/// An index is a place with the wrap bit above it, which is all that is kept of a position.
pub fn indexes_tell_place_and_wrap_bit()
    ensures parts { IndexesArePlaceAndWrapBit }
    ensures alike { IndexesTellPlaceAndWrapBit }
    ensures apart { SlotsAreApart }
    ensures turns { WrapBitsTurnByLap }
{}

/// The indexes of two positions at most the size apart tell their distance, and whether the queue between
/// them is empty or full.
pub fn indexes_tell_the_queue()
    ensures queue { IndexesTellTheQueue }
    ensures control { QueuesHaveAControl }
{}

/// A word says only one control, and a control has only one word.
pub fn control_words_say_their_control()
    ensures said { WordsSayTheirControl }
    ensures again { ControlsHaveTheirWord }
{}

/// One atomic or with `close_mask` closes the control word, whatever it is, and changes nothing else.
pub fn or_closes()
    ensures closes { OrCloses }
    ensures alone { OrSetsBit31Alone }
{}

/// One atomic exclusive or with an `advance_mask` moves `cons` of the control word, whatever the rest of it
/// is, and changes nothing else.
pub fn xor_advances_cons()
    ensures advances { XorAdvances }
    ensures alone { XorTurnsConsAlone }
{}
