//! Laws of the definitions. Each is the contract of a function that does nothing.
ghost use Rattle.invalidations.specs.Laws.{InvalidationsCoverTheirRanges, WholeSpacesAreCovered};
ghost use Rattle.invalidations.specs.AnyOrder.{CoveredBatchesAreClean, ChangesAreClean, Stage1BehindIsClean, EndpointsAreClean};
ghost use Rattle.invalidations.specs.Reaching.{InvalidationsReachTheirBytes, GatheredBytesAreCovered, ServedWordsAreLegal};

use cmdcodec::legal_words_spell_one_command;

/// The commands of an invalidation cover every translation of its range, reach no further, and are few.
pub fn invalidations_cover_their_ranges()
    ensures { InvalidationsCoverTheirRanges }
{}

/// The command for all pages of a space covers every translation for it, but for global ones if it is one address
/// space of several.
pub fn whole_spaces_are_covered()
    ensures { WholeSpacesAreCovered }
{}

/// The commands of an invalidation cover every translation of its bytes, by address or by the whole space; by
/// address they reach no further than the leaves that hold the bytes; and the SMMU has each of them.
pub fn invalidations_reach_their_bytes()
    ensures { InvalidationsReachTheirBytes }
{}

/// An SMMU may carry the commands ahead of a CMD_SYNC out in any order, and make entries of others meanwhile. Behind the
/// commands of an invalidation nothing that they cover is left, nor made again; behind stage 2 the same holds of stage 1 once
/// its command is sent in a batch of its own, and then of endpoints.
pub fn batches_are_clean_in_any_order()
    ensures covered { CoveredBatchesAreClean }
    ensures changes { ChangesAreClean }
    ensures stage_1_behind { Stage1BehindIsClean }
    ensures endpoints { EndpointsAreClean }
{}

/// What translates a byte that was gathered is covered by the commands of the invalidation that has it, when it is taken
/// out.
pub fn gathered_bytes_are_covered()
    ensures { GatheredBytesAreCovered }
{}

/// The words of a command that the SMMU has are legal for it: `Smmu::judge` finds nothing.
pub fn served_words_are_legal()
    ensures { ServedWordsAreLegal }
{
    legal_words_spell_one_command();
}
