//! Laws of the definitions. Each is the contract of a function that does nothing.
ghost use Rattle.cmdcodec.specs.Laws.{LegalWordsSpellOneCommand, SpelledWordsAreLegal, WordsDecodeToWhatTheySpell, IllegalWordsDecodeToTheirFault, FreeBitsAreIgnored, AllOtherBitsAreNamed, RunsAreOfWholeGranules};

/// Words are legal exactly if they spell a command, and then they spell exactly one: the one they decode to.
pub fn legal_words_spell_one_command()
    ensures one { LegalWordsSpellOneCommand }
    ensures legal { SpelledWordsAreLegal }
    ensures decoded { WordsDecodeToWhatTheySpell }
    ensures faults { IllegalWordsDecodeToTheirFault }
{}

/// Two pairs of words that differ only in free bits spell the same command and decode alike; two pairs that
/// spell the same command differ only in free bits.
pub fn free_bits_are_ignored()
    ensures ignored { FreeBitsAreIgnored }
    ensures no_others { AllOtherBitsAreNamed }
{}

/// The run of an invalidation by address is the pages of the granules that it reaches, up to the end of the
/// address space.
pub fn runs_are_of_whole_granules()
    ensures { RunsAreOfWholeGranules }
{}
