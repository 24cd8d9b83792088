//! What the lines of a log say.
use caches::Tag;
use cmdcodec::Raw;
use engine::Remedy;

/// What a model did with a line of its log, or should have done.
#[derive(Clone, Copy, Debug, PartialEq, Eq)]
pub(crate) enum Conduct {
    /// It filled what the walk read.
    Filled,
    /// It didn't, since a command overtook the walk.
    Overtaken,
    /// It used an entry of this value.
    Used { value: u64 },
    /// It found no entry.
    Missed,
    /// It completed the command.
    Completed,
    /// It left the command in the queue.
    Waited,
}

/// What a line says.
#[derive(Clone, Copy, Debug, PartialEq, Eq)]
pub(crate) enum Request {
    /// Nothing: a comment or a line without words.
    Nothing,
    /// A walk of this number begins.
    Walk { number: u64 },
    /// What the walk read is filled.
    Fill { number: u64, tag: Tag, value: u64 },
    /// An access of this number begins with the entry that is held.
    Use { number: u64, tag: Tag },
    /// That access is over.
    End { number: u64 },
    /// The queue takes a command.
    Command(Raw),
    /// Software acknowledges an error stop with this SMMU_GERRORN.
    Acknowledge { gerrorn: u32, remedy: Remedy },
    /// The model did this with the line before.
    Did(Conduct),
}
