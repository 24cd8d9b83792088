//! How a batch ends.

/// How a batch ends: with a closing CMD_SYNC, or with its last command.
pub trait BatchKind {
    ghost use Rattle.std.specs.Prelude.{◌≡◌, Bool};

    ghost closes: { Bool };

    /// Whether a CMD_SYNC closes it.
    fn closes() -> bool
        ensures { result ≡ closes };
}

/// With a closing CMD_SYNC, which has a number.
pub struct Closing;

impl BatchKind for Closing {
    ghost use Rattle.std.specs.Prelude.{true};

    ghost closes = { true };

    fn closes() -> bool {
        true
    }
}

/// With its last command (own).
pub struct Bare;

impl BatchKind for Bare {
    ghost use Rattle.std.specs.Prelude.{false};

    ghost closes = { false };

    fn closes() -> bool {
        false
    }
}
