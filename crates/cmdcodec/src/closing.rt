//! The CMD_SYNC that ends a batch, and the completion cell it writes to.
ghost use Rattle.std.specs.Prelude.{◌≡◌, ◌≢◌, ℕ, true, MatchOption};
ghost use Rattle.cmdcodec.specs.ClosingSync.{cell_address, closing_sync};
ghost use Rattle.cmdcodec.specs.Opcodes.{is_sync};
ghost use Rattle.cmdcodec.specs.Words.{encoding};

use crate::command::Command;
use crate::fields::{Attr, Cs, Msh, MsiWord};

/// The address of sender 0's completion cell.
const FIRST_CELL: u64 = 0x4000_0000;

/// The size of a completion cell in bytes.
const CELL_BYTES: u64 = 4;

/// Returns the address of a sender's completion cell. The cells are contiguous, 4 bytes each (own).
pub fn cell_address(sender: u32) -> u64
    ensures { result ≡ cell_address sender }
{
    FIRST_CELL + CELL_BYTES * u64::from(sender)
}

/// Returns the sender whose completion cell begins at `address`, if there is one.
pub fn cell_owner(address: u64) -> Option<u64>
    ensures { MatchOption result ((sender : ℕ) → address ≢ cell_address sender) (λ sender. address ≡ cell_address sender) }
{
    let offset = address.checked_sub(FIRST_CELL)?;
    if offset % CELL_BYTES != 0 {
        return None;
    }
    Some(offset / CELL_BYTES)
}

/// Returns the CMD_SYNC that ends batch `number` of a sender: it writes the number into the sender's
/// completion cell (own).
pub fn closing_sync(sender: u32, number: u32) -> Command
    ensures value { result ≡ closing_sync sender number }
    // Its words are those of a CMD_SYNC to the cell.
    ensures opcode { is_sync (encoding result) ≡ true }
    ensures address { (encoding result).hi ≡ cell_address sender }
{
    let address = cell_address(sender) / CELL_BYTES;
    Command::CmdSync {
        cs: Cs::new(1).unwrap(),
        msh: Msh::new(0).unwrap(),
        attr: Attr::new(0).unwrap(),
        data: number,
        address: MsiWord::new(address).unwrap(),
    }
}
