//! The lines of a replay.
use crate::expected::{
    EIGHT_BITS, Expected, FIFTY_TWO_BITS, SIXTEEN_BITS, SIXTY_FOUR_BITS, THIRTY_TWO_BITS,
    TWENTY_BITS,
};
use crate::form::{Form, LOG2, Rest, SENDERS};
use caches::MOST_ENTRIES;

/// How many steps a line may ask for.
const STEPS: Rest = Rest::Optional(Expected::Number(1, 1_000_000));

/// The forms of lines by their names.
pub(crate) static FORMS: [(&str, Form); 17] = [
    (
        "ring",
        Form::Words(
            &[
                THIRTY_TWO_BITS,
                THIRTY_TWO_BITS,
                THIRTY_TWO_BITS,
                THIRTY_TWO_BITS,
            ],
            Rest::Nothing,
        ),
    ),
    ("fill", Form::Tagged(&[SIXTY_FOUR_BITS])),
    ("evict", Form::Tagged(&[])),
    ("lookup", Form::Tagged(&[])),
    ("send", Form::Words(&[THIRTY_TWO_BITS], Rest::Commands)),
    ("bare", Form::Words(&[THIRTY_TWO_BITS], Rest::Commands)),
    ("open", Form::Words(&[THIRTY_TWO_BITS], Rest::Commands)),
    ("openbare", Form::Words(&[THIRTY_TWO_BITS], Rest::Commands)),
    (
        "inval",
        Form::Words(
            &[
                THIRTY_TWO_BITS,
                SIXTEEN_BITS,
                SIXTEEN_BITS,
                FIFTY_TWO_BITS,
                SIXTY_FOUR_BITS,
            ],
            Rest::Nothing,
        ),
    ),
    (
        "detach",
        Form::Words(&[THIRTY_TWO_BITS, THIRTY_TWO_BITS], Rest::Nothing),
    ),
    ("publish", Form::Words(&[THIRTY_TWO_BITS], Rest::Nothing)),
    ("done", Form::Words(&[THIRTY_TWO_BITS], Rest::Nothing)),
    ("look", Form::Words(&[THIRTY_TWO_BITS], Rest::Nothing)),
    ("close", Form::Words(&[THIRTY_TWO_BITS], Rest::Nothing)),
    ("step", Form::Words(&[], STEPS)),
    (
        "ack",
        Form::Words(&[THIRTY_TWO_BITS, Expected::Remedy], Rest::Nothing),
    ),
    ("dump", Form::Words(&[], Rest::Nothing)),
];

/// The words of a tag of this kind, if there is one.
pub(crate) fn tag_words(kind: &[u8]) -> Option<&'static [Expected]> {
    let words: &[Expected] = match str::from_utf8(kind).unwrap_or_default() {
        "ste" => &[THIRTY_TWO_BITS],
        "cd" => &[THIRTY_TWO_BITS, TWENTY_BITS],
        "s1" => &[SIXTEEN_BITS, Expected::Scope, FIFTY_TWO_BITS, EIGHT_BITS],
        "s2" => &[SIXTEEN_BITS, FIFTY_TWO_BITS, EIGHT_BITS],
        "el2" => &[Expected::Scope, FIFTY_TWO_BITS, EIGHT_BITS],
        "atc" => &[
            THIRTY_TWO_BITS,
            Expected::Substream,
            FIFTY_TWO_BITS,
            EIGHT_BITS,
        ],
        _ => return None,
    };
    Some(words)
}

/// The form of a line for a ring that can be made.
pub(crate) const RING: Form = Form::Words(
    &[
        LOG2,
        SENDERS,
        Expected::Number(1, 0xffff_ffff),
        Expected::Number(1, MOST_ENTRIES as u64),
    ],
    Rest::Nothing,
);
