//! What the words of a line have to be, from its second on.
use crate::expected::Expected;
use ringcore::MOST_SENDERS;

/// The base-2 logarithm of the slots of a ring that can be made.
pub(crate) const LOG2: Expected = Expected::Number(1, 19);
/// How many senders a ring that can be made has.
pub(crate) const SENDERS: Expected = Expected::Number(1, MOST_SENDERS as u64);

/// What may follow the words that a line always has.
#[derive(Clone, Copy)]
pub(crate) enum Rest {
    /// Nothing.
    Nothing,
    /// Any number of commands.
    Commands,
    /// One more word.
    Optional(Expected),
}

/// What the words of a line have to be, from its second on.
#[derive(Clone, Copy)]
pub(crate) enum Form {
    /// These words, and what may follow them.
    Words(&'static [Expected], Rest),
    /// The kind of a tag, the words that the kind decides, and these words.
    Tagged(&'static [Expected]),
}

/// The form of a line of this name, if there is one.
pub(crate) fn form_of(forms: &[(&str, Form)], name: &[u8]) -> Option<Form> {
    match forms.iter().find(|(each, _)| each.as_bytes() == name) {
        Some((_, form)) => Some(*form),
        None => None,
    }
}
