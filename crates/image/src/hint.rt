//! What may help with an image that can't be that of the queue.
ghost use Rattle.std.specs.Prelude.{◌≡◌, ◌*◌, Some, length, option_map};
ghost use Rattle.std.specs.List.{list_all};
ghost use Rattle.cmdcodec.specs.Words.{decoding};
ghost use Rattle.qindex.specs.Positions.{size};
ghost use Rattle.image.specs.Hints.{are_swapped, distance_hint, fault_hint, held_hint, hint_text, is_swapped, is_zero, swapped, swapped_halves, swapped_hint, swapped_word, width_text, view_hint};
ghost use Rattle.image.specs.Queues.{IsShown, log2_of};

use crate::asked::Asked;
use crate::fault::ImageFault;
use crate::known::geometry_of;
use crate::lines::raw_at;
use crate::queue::{Queue, err_of};
use cmdcodec::{Raw, decode};
use std::fmt;

/// A unit of memory whose bytes may stand the other way round.
#[derive(Clone, Copy, Debug, PartialEq, Eq)]
pub enum Width {
    /// 4 bytes.
    Word,
    /// 8 bytes.
    Doubleword,
}

/// What may help with an image that is refused, or in which no command that waits is legal. It is this project's choice.
#[derive(Clone, Copy, Debug, PartialEq, Eq)]
pub enum Hint {
    /// The image has another length than its size has, that of `2^log2` slots.
    Size { log2: u32 },
    /// If PROD and CONS were exchanged, their distance would be good.
    Exchanged,
    /// Commands wait, and each byte of the image is 0.
    Zeros,
    /// Each command that waits is illegal as it stands, and legal if the bytes of each width are turned round.
    Swapped(Width),
}

fn width_text(width: Width) -> &'static str
    ensures { result.now ≡ width_text width }
{
    match width {
        Width::Word => "4",
        Width::Doubleword => "8",
    }
}

impl fmt::Display for Hint {
    ghost output = { λ hint. Some (hint_text hint) };

    fn fmt<W: fmt::Write>(&self, f: &mut fmt::Formatter<W>) -> fmt::Result {
        match *self {
            Hint::Size { log2 } => write!(f, "the length is that of log2 {log2}"),
            Hint::Exchanged => write!(f, "PROD and CONS may be exchanged"),
            Hint::Zeros => write!(f, "the image is all zeros"),
            Hint::Swapped(width) => {
                let bytes = width_text(width);
                write!(f, "the image looks byte-swapped, in units of {bytes} bytes")
            }
        }
    }
}

/// PROD has no ERR. Where CONS has, they weren't exchanged.
fn of_distance(cons: Option<u32>) -> Option<Hint>
    ensures { result ≡ distance_hint cons }
{
    if err_of(cons?) == 0 {
        Some(Hint::Exchanged)
    } else {
        None
    }
}

fn of_length(bytes: usize) -> Option<Hint>
    ensures { result ≡ option_map Hint.Size (log2_of bytes) }
{
    let log2 = geometry_of(bytes)?.log2();
    Some(Hint::Size { log2 })
}

fn swapped_word(width: Width, word: u64) -> u64
    ensures { result ≡ swapped_word width word }
{
    match width {
        Width::Word => swapped_halves(word),
        Width::Doubleword => word.swap_bytes(),
    }
}

fn swapped_halves(word: u64) -> u64
    ensures { result ≡ swapped_halves word }
{
    let low = (word % 0x1_0000_0000) as u32;
    let high = (word / 0x1_0000_0000) as u32;
    u64::from(low.swap_bytes()) + u64::from(high.swap_bytes()) * 0x1_0000_0000
}

/// Whether a command is illegal as it stands, and legal the other way round.
fn is_swapped(width: Width, raw: Raw) -> bool
    ensures { result ≡ is_swapped width raw }
{
    let turned = Raw {
        lo: swapped_word(width, raw.lo),
        hi: swapped_word(width, raw.hi),
    };
    decode(raw).is_err() && decode(turned).is_ok()
}

/// Whether each command that waits is so.
fn are_swapped(width: Width, image: &[u8], queue: &Queue) -> bool
    requires shown { IsShown queue.now }
    requires image { length image.now ≡ 16 * size queue.now.cons.geometry }
    ensures { result ≡ are_swapped width image.now queue.now }
{
    'steps: for steps in 0..queue.waiting() {
        let slot = queue.cons.forward(steps).place();
        if !is_swapped(width, raw_at(image, slot)) {
            return false;
        }
    }
    true
}

fn are_zeros(image: &[u8]) -> bool
    ensures { result ≡ list_all is_zero image.now }
{
    'bytes: for byte in image {
        if *byte != 0 {
            return false;
        }
    }
    true
}

fn of_swapped(image: &[u8], queue: &Queue) -> Option<Hint>
    requires shown { IsShown queue.now }
    requires image { length image.now ≡ 16 * size queue.now.cons.geometry }
    ensures { result ≡ swapped_hint image.now queue.now }
{
    if are_swapped(Width::Doubleword, image, queue) {
        Some(Hint::Swapped(Width::Doubleword))
    } else if are_swapped(Width::Word, image, queue) {
        Some(Hint::Swapped(Width::Word))
    } else {
        None
    }
}

impl Hint {
    /// Returns what may help with a fault, if anything does.
    pub(crate) fn of_fault(fault: ImageFault, asked: &Asked) -> Option<Hint>
        ensures { result ≡ fault_hint asked.now.cons fault }
    {
        match fault {
            ImageFault::BadLength(bytes) => of_length(bytes),
            ImageFault::BadDistance(_) => of_distance(asked.cons),
            _ => None,
        }
    }

    /// Returns what may help with a queue that is shown, if anything does.
    pub(crate) fn of_view(image: &[u8], queue: &Queue) -> Option<Hint>
        requires shown { IsShown queue.now }
        requires image { length image.now ≡ 16 * size queue.now.cons.geometry }
        ensures { result ≡ view_hint image.now queue.now }
    {
        if queue.waiting() == 0 {
            None
        } else if are_zeros(image) {
            Some(Hint::Zeros)
        } else {
            of_swapped(image, queue)
        }
    }
}
