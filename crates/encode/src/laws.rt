//! Laws of the definitions, each the contract of a function that does nothing.
ghost use Rattle.encode.specs.OrderLaws.{OrderPlaysNoPart};
ghost use Rattle.encode.specs.ReadingLaws.{TextsAreReadBack};

use cmdcodec::legal_words_spell_one_command;

/// The text that `decode` tells of each command that words spell is read back as words that decode to that command.
pub fn texts_are_read_back()
    ensures { TextsAreReadBack }
{
    legal_words_spell_one_command();
}

/// The words of a command's text may come in any order after its name.
pub fn order_plays_no_part()
    ensures { OrderPlaysNoPart }
{}
