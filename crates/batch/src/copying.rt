//! A copy of commands whose owner may let others change them.
ghost use Rattle.std.specs.Prelude.{◌≡◌, ◌≤◌, ◌↔◌, Err, IsOk, OnErr, OnOk, length};

use crate::body::Commands;
use crate::fault::BatchFault;
use cmdcodec::Raw;

/// Copies commands, each word by a single read. Errors: B1 if they are more than 63.
///
/// It isn't inlined, so that no read of the copy is made a second read of what was copied.
#[inline(never)]
pub(crate) fn copy_of(raws: &[Raw], copy: &mut Commands) -> Result<(), BatchFault>
    ensures variant { IsOk result ↔ (length raws.now ≤ 63) }
    ensures copied { OnOk result (copy.new.items ≡ raws.now) }
    ensures fault { OnErr result (result ≡ Err BatchFault.Full) }
{
    copy.clear();
    match copy.try_extend_from_slice(raws) {
        Ok(()) => Ok(()),
        Err(_) => Err(BatchFault::Full),
    }
}
