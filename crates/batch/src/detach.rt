//! The commands that detach a stream.
ghost use Rattle.std.specs.Prelude.{◌≡◌, ◌≤◌, ◌+◌, ◌++◌, false, length, map};
ghost use Rattle.std.specs.List.{list_any};
ghost use Rattle.cmdcodec.specs.Words.{encoding};
ghost use Rattle.cmdcodec.specs.Opcodes.{is_sync};
ghost use Rattle.cmdcodec.specs.Bodies.{IsBody};
ghost use Rattle.batch.specs.Detaching.{detach_commands};

use crate::body::Commands;
use cmdcodec::{Command, Page, Sid, Size, Ssid, encode};

/// `Size` of an ATC_INV for all `2^52` pages.
const SIZE_OF_ALL: u64 = 52;

/// How many commands detach a stream.
pub(crate) const DETACH_COMMANDS: usize = 3;

/// Appends the commands that detach a stream. There must be room for them.
pub(crate) fn append_detach(commands: &mut Commands, sid: Sid)
    requires { length commands.old.items + 3 ≤ 63 }
    ensures appended { commands.new.items ≡ commands.old.items ++ map encoding (detach_commands sid) }
    ensures body { list_any is_sync commands.old.items ≡ false → IsBody commands.new.items }
{
    commands.push(encode(&Command::CfgiSte { sid, leaf: true }));
    commands.push(encode(&Command::CfgiCdAll { sid }));
    commands.push(encode(&Command::AtcInv {
        sid,
        ssv: false,
        ssid: Ssid::new(0).unwrap(),
        global: false,
        size: Size::new(SIZE_OF_ALL).unwrap(),
        page: Page::new(0).unwrap(),
    }));
}
