//! A device on which commands have no effect.
use ring::Device;

/// It is always settled.
pub(crate) struct Nothing;

impl Device for Nothing {
    ghost use Rattle.std.specs.Prelude.{⊤};

    ghost settled = { λ device taken. ⊤ };
}
