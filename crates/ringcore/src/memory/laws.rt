//! One law for each kind of atomic step: its one operation on one word reads what the event finds, and
//! turns the words of the world before into those of the world after.
ghost use Rattle.ringcore.specs.memory.StepLaws.{Always, OpensAllZero, HasAControlWord, LooksByALoad, WinsByAnExchange, LosesByAnExchange, WritesByAStore, FlipsByAnExclusiveOr, TestsByALoad, TestsFindReadyIn, ReadsByALoad, AdvancesByAnExclusiveOr, ClosesByAnOr, AcknowledgesByAStore, AsksByALoad, StoredBackIsTheSame, WordsAreApart, StartsWhereItLooked};
ghost use Rattle.ringcore.specs.memory.Flags.{ReadyInIsAReadyRun, ReadyRunsAreOne, ReadyRunsFitTheRing, IndexesTellSharedWords, BatchesHaveTwoFlagWords};
ghost use Rattle.ringcore.specs.memory.SenderLaws.{LengthsAreOfCommands, StartsAtItsIndex, SendersHaveTheirSlots, ReservationsAreApart};
ghost use Rattle.ringcore.specs.world.Laws.{EveryRun};

use qindex::{
    control_words_say_their_control, indexes_tell_place_and_wrap_bit, indexes_tell_the_queue,
    or_closes, xor_advances_cons,
};

/// Before the first step all words are 0.
pub fn begin()
    ensures { OpensAllZero }
{}

/// A load of the control word finds what a look finds.
pub fn look()
    ensures word { Always HasAControlWord }
    ensures finds { Always LooksByALoad }
{
    control_words_say_their_control();
    indexes_tell_the_queue();
}

/// An exchange of the control word that finds what the sender looked at reserves its batch.
pub fn reserve_won()
    ensures { Always WinsByAnExchange }
{
    control_words_say_their_control();
    indexes_tell_the_queue();
}

/// An exchange of the control word that finds anything else reserves nothing.
pub fn reserve_lost()
    ensures { Always LosesByAnExchange }
{
    control_words_say_their_control();
    indexes_tell_the_queue();
}

/// A store to the data word writes a half of a reserved command.
pub fn write()
    ensures { Always WritesByAStore }
{
    indexes_tell_place_and_wrap_bit();
}

/// An exclusive or of the flag word with the mask of a run flips the flags of the run.
pub fn flip()
    ensures { Always FlipsByAnExclusiveOr }
{
    indexes_tell_place_and_wrap_bit();
}

/// A load of the head's flag word finds how many positions in a row are flipped.
pub fn test()
    ensures { Always TestsByALoad }
{
    indexes_tell_place_and_wrap_bit();
}

/// A flag word has one ready run, which is a function of the word and no longer than the ring. A load of the
/// head's flag word finds exactly that.
pub fn ready_runs()
    ensures function { ReadyInIsAReadyRun }
    ensures one { ReadyRunsAreOne }
    ensures within { ReadyRunsFitTheRing }
    ensures test { Always TestsFindReadyIn }
{
    indexes_tell_place_and_wrap_bit();
}

/// A load of the data word finds that half of the command.
pub fn read()
    ensures { Always ReadsByALoad }
{}

/// An exclusive or of the control word with the advance mask takes commands.
pub fn advance()
    ensures { Always AdvancesByAnExclusiveOr }
{
    indexes_tell_place_and_wrap_bit();
    indexes_tell_the_queue();
    xor_advances_cons();
}

/// An or of the control word with bit 31 closes the ring.
pub fn close()
    ensures { Always ClosesByAnOr }
{
    or_closes();
    indexes_tell_the_queue();
}

/// A store to the sender's completion cell acknowledges a number.
pub fn acknowledge()
    ensures { Always AcknowledgesByAStore }
{}

/// A load of the sender's completion cell finds the acknowledged number.
pub fn ask()
    ensures { Always AsksByALoad }
{}

/// Storing a word back changes nothing, so a load, or a lost exchange, is also a store.
pub fn stored_back()
    ensures { StoredBackIsTheSame }
{}

/// The control word, the flag words, the data words and each completion cell don't share 64 bytes with one
/// another.
pub fn apart()
    ensures { WordsAreApart }
{}

/// A sender's last reservation starts at the index that it looked at.
pub fn start()
    ensures { Always StartsWhereItLooked }
{}

/// A sender's own trail tells its last reservation: where it starts, its commands, and which of them are
/// written and flipped. No two senders' have a position in common, and the flags of one are in at most two
/// words.
pub fn sender_trail()
    ensures length { LengthsAreOfCommands }
    ensures start { StartsAtItsIndex }
    ensures slots { EveryRun SendersHaveTheirSlots }
    ensures apart { EveryRun ReservationsAreApart }
    ensures shared_words { IndexesTellSharedWords }
    ensures flag_words { BatchesHaveTwoFlagWords }
{
    indexes_tell_place_and_wrap_bit();
}
