//! Reads a line of a dump.
ghost use Rattle.std.specs.Prelude.{◌≡◌};
ghost use Rattle.line_answers.specs.LineWords.{words_of};
ghost use Rattle.hex_dump.specs.Dumps.{behind_address, dumped};

use crate::address::{address_of, data_text, has_colon};
use crate::data::{is_end, slot_of};
use crate::dumped::{DumpLine, Dumped};
use line_answers::next_word;

/// Reads what comes behind the address of a line.
fn behind_address(address: u64, colon: bool, text: &[u8]) -> Dumped
    ensures { result ≡ behind_address (Some address) colon (words_of text.now) }
{
    if is_end(text) {
        return Dumped::Nothing;
    }
    match slot_of(colon, data_text(colon, text)) {
        Some(raw) => Dumped::Slot(DumpLine { address, raw }),
        None => Dumped::Bad,
    }
}

/// Reads a line that `xxd`, `xxd -g 1`, `hexdump -C`, `od -A x -t x1`, gdb (`x/32gx`, `x/64wx`), QEMU's monitor
/// (`xp /8gx`), the crash utility (`rd`) or U-Boot (`md.l`, `md.q`) writes: an address, 16 bytes and maybe a text column.
/// What it has to look like is this project's choice.
#[tactic(auto, unfolding(crate::specs::Dumps::dumped))]
pub fn dump_line(line: &[u8]) -> Dumped
    ensures { result ≡ dumped (words_of line.now) }
{
    match next_word(line) {
        Some((word, rest)) => match address_of(word) {
            Some(address) => behind_address(address, has_colon(word), rest),
            None => Dumped::Bad,
        },
        None => Dumped::Nothing,
    }
}
