//! Laws of every run, whoever takes the next step.
ghost use Rattle.progress.specs.Contention.{ChangesAreThese, ChangesAreFew, OvertakersAreOthers, LossesArePaidFor, LossesArePaidForInEachPart, EachLossHadAStaleLook, LossesAreOvertakenApart, AllLossesArePaidFor, LossesAreBounded};
ghost use Rattle.progress.specs.Alone.{AloneNoneIsLost, TwoStepsReserve, EachTryEnds};
ghost use Rattle.progress.specs.Waiting.{HoldersAreOpen, OnlyOneHolds, UnflippedAreHeld, WaitingHasAName, HeldSinceALook, OnlyTheHolderEndsIt, TestsFindSome};
ghost use Rattle.progress.specs.Draining.{DrainsEnd, FewAreOwed, LooksFindRoom, DrainsMakeRoom};
ghost use Rattle.progress.specs.Publishing.{OthersDisableNothing, SendersPublishAlone, EveryRunCanFinish};

use qindex::indexes_tell_the_queue;

/// Reserving is lock-free: a sender loses at most as many exchanges as the control word was changed otherwise
/// than by its own exchanges, in all of a run and in each part of it.
pub fn contention_law()
    ensures these { ChangesAreThese }
    ensures few { ChangesAreFew }
    ensures others { OvertakersAreOthers }
    ensures paid { LossesArePaidFor }
    ensures parts { LossesArePaidForInEachPart }
    ensures each { EachLossHadAStaleLook }
    ensures apart { LossesAreOvertakenApart }
    ensures all { AllLossesArePaidFor }
    ensures bounded { LossesAreBounded }
{
    indexes_tell_the_queue();
}

/// Reserving is obstruction-free: an exchange that directly follows its look isn't lost, so a sender that may
/// reserve does so in two steps of its own.
pub fn alone_law()
    ensures unlost { AloneNoneIsLost }
    ensures two { TwoStepsReserve }
    ensures ends { EachTryEnds }
{
    indexes_tell_the_queue();
}

/// Each reserved command that isn't flipped is held by the open reservation of one sender. A consumer that waits
/// at the head waits for that sender alone, so taking isn't lock-free.
pub fn waiting_law()
    ensures unsettled { HoldersAreOpen }
    ensures one { OnlyOneHolds }
    ensures held { UnflippedAreHeld }
    ensures name { WaitingHasAName }
    ensures since { HeldSinceALook }
    ensures only { OnlyTheHolderEndsIt }
    ensures some { TestsFindSome }
{}

/// If no reservation is open, the consumer alone can take and acknowledge all, and then there is room again.
pub fn draining_law()
    ensures ends { DrainsEnd }
    ensures few { FewAreOwed }
    ensures room { LooksFindRoom }
    ensures reserves { DrainsMakeRoom }
{
    indexes_tell_the_queue();
}

/// Publishing is wait-free, and no run is stuck: a step that depends on no other's stays allowed whatever they do,
/// each sender publishes its reservation alone, and every run can go on, without another reservation, until all
/// is taken and acknowledged.
pub fn finishing_law()
    ensures stays { OthersDisableNothing }
    ensures alone { SendersPublishAlone }
    ensures ends { EveryRunCanFinish }
{}
