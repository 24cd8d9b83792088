//! Laws of every run, whoever takes the next step.
ghost use Rattle.ringcore.specs.world.Delivery.{TakenInOrder, NumberedInOrder, NoneAfterClose, ToldWhenCompleted};
ghost use Rattle.ringcore.specs.world.Laws.{EveryRun, NeverMoreThanFull, AcknowledgedAreTaken, AcknowledgedAreApplied, ToldOfAllUpTo, CommandsOfBatches, AllOfBatches, ClosedByAClose, BatchesAreUnbroken, SendersOrderIsKept, EarlierStandsBefore, BatchesHaveOwners, FewAreReserved, ListsAreShort, SyncsTellTheirBatch, SyncsAddUp, SyncsAreCounted, NumbersAreFew, SyncsComeInOrder};
ghost use Rattle.ringcore.specs.world.ConsumerLaws.{TellsTheHead, TellsTheNumbers, TellsWhatIsAdvanced, TellsTheOutcomes, RawsAreCounted, SyncsOfRawsAreCounted, TookSyncsInOrder, TakenAreFlipped, FlippedAreWritten, FoundIsReady, ReadsAreOfItems, ConsumerIsSteady, DrainedIsTheEnd};
ghost use Rattle.ringcore.specs.world.NewestEvents.{StepsGrowTheirTrail, OthersLeaveTheTrail, NewestWasAllowed, LooksFindControls, LookedAreControls, LostFoundAnother, AsksFindFew};

use qindex::indexes_tell_the_queue;

/// Every run, of any length, with any number of senders, in a ring of any size, is ordered delivery: what is
/// taken is a beginning of what was reserved, batches are numbered from 1, none is reserved after a close,
/// and a sender is told a number only after its closing sync, and all before it, was taken. This holds for
/// all numbers up to one that is told or acknowledged, and their syncs were applied. The ring is never more
/// than full.
pub fn world_law()
    ensures taken { EveryRun TakenInOrder }
    ensures numbered { EveryRun NumberedInOrder }
    ensures closed { EveryRun NoneAfterClose }
    ensures told { EveryRun ToldWhenCompleted }
    ensures within { NeverMoreThanFull }
    ensures acknowledged { EveryRun AcknowledgedAreTaken }
    ensures applied { EveryRun AcknowledgedAreApplied }
    ensures told_of_all { EveryRun ToldOfAllUpTo }
{}

/// In every run each batch is in one piece, and the batches of one sender are in the order in which it
/// reserved them: the earlier before the later. Nothing else is reserved, each batch belongs to one of the
/// senders, and the ring is closed once a close was taken, and not before.
pub fn batches_law()
    ensures unbroken { EveryRun BatchesAreUnbroken }
    ensures senders_order { EveryRun SendersOrderIsKept }
    ensures earlier_first { EveryRun EarlierStandsBefore }
    ensures commands { EveryRun CommandsOfBatches }
    ensures all { EveryRun AllOfBatches }
    ensures closed { EveryRun ClosedByAClose }
    ensures owners { BatchesHaveOwners }
{}

/// What is reserved is bounded by the number of senders and of the batches that each may make, so no count of
/// it wraps. The consumer's own trail says which closing syncs are taken; their numbers are bounded too, and
/// come one after another.
pub fn counts_law()
    ensures bound { FewAreReserved }
    ensures short { ListsAreShort }
    ensures words { SyncsTellTheirBatch }
    ensures sum { SyncsAddUp }
    ensures syncs { EveryRun SyncsAreCounted }
    ensures few { NumbersAreFew }
    ensures order { SyncsComeInOrder }
{}

/// The consumer's own trail tells what is taken and acknowledged. What its last test found is flipped, what
/// it read is what was reserved there, and what it read at the head is found again until it is taken. If it
/// saw the ring closed and empty, all that is ever reserved is taken.
pub fn consumer_trail()
    ensures head { EveryRun TellsTheHead }
    ensures acknowledged { EveryRun TellsTheNumbers }
    ensures advanced { EveryRun TellsWhatIsAdvanced }
    ensures taken { EveryRun TellsTheOutcomes }
    ensures count { RawsAreCounted }
    ensures syncs { SyncsOfRawsAreCounted }
    ensures order { TookSyncsInOrder }
    ensures passed { EveryRun TakenAreFlipped }
    ensures written { EveryRun FlippedAreWritten }
    ensures ready { EveryRun FoundIsReady }
    ensures read { EveryRun ReadsAreOfItems }
    ensures steady { ConsumerIsSteady }
    ensures drained { DrainedIsTheEnd }
{
    indexes_tell_the_queue();
}

/// A step grows only its own seat's trail, and the newest event of a trail was allowed in an earlier part of
/// the run. So what a look found is a control of the ring, what a lost exchange found isn't what was looked
/// at, and what an ask found is bounded.
pub fn newest_event()
    ensures own { StepsGrowTheirTrail }
    ensures others { OthersLeaveTheTrail }
    ensures allowed { NewestWasAllowed }
    ensures look { LooksFindControls }
    ensures looked { LookedAreControls }
    ensures lost { LostFoundAnother }
    ensures ask { AsksFindFew }
{
    indexes_tell_the_queue();
}
