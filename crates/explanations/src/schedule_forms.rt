//! The lines of a schedule.
use crate::expected::{Expected, THIRTY_TWO_BITS};
use crate::form::{Form, LOG2, Rest, SENDERS};

/// How many flags a step may go over.
const FLAGS: Rest = Rest::Optional(Expected::Number(1, 64));

/// The forms of lines by their names.
pub(crate) static FORMS: [(&str, Form); 12] = [
    (
        "ring",
        Form::Words(&[THIRTY_TWO_BITS, THIRTY_TWO_BITS], Rest::Nothing),
    ),
    (
        "read",
        Form::Words(&[THIRTY_TWO_BITS, THIRTY_TWO_BITS], Rest::Nothing),
    ),
    ("look", Form::Words(&[Expected::Looker], Rest::Nothing)),
    ("reserve", Form::Words(&[THIRTY_TWO_BITS], Rest::Commands)),
    ("bare", Form::Words(&[THIRTY_TWO_BITS], Rest::Commands)),
    (
        "write",
        Form::Words(
            &[THIRTY_TWO_BITS, THIRTY_TWO_BITS, THIRTY_TWO_BITS],
            Rest::Nothing,
        ),
    ),
    (
        "flip",
        Form::Words(&[THIRTY_TWO_BITS, THIRTY_TWO_BITS], FLAGS),
    ),
    ("test", Form::Words(&[THIRTY_TWO_BITS], FLAGS)),
    ("advance", Form::Words(&[], FLAGS)),
    ("close", Form::Words(&[THIRTY_TWO_BITS], Rest::Nothing)),
    ("ask", Form::Words(&[THIRTY_TWO_BITS], Rest::Nothing)),
    (
        "ack",
        Form::Words(&[THIRTY_TWO_BITS, THIRTY_TWO_BITS], Rest::Nothing),
    ),
];

/// The form of a line for a ring that can be made.
pub(crate) const RING: Form = Form::Words(&[LOG2, SENDERS], Rest::Nothing);
