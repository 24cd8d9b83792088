//! What the commands that are taken act on.

/// Something that commands act on, such as caches.
pub trait Device {
    ghost use Rattle.std.specs.Prelude.{List};
    ghost use Rattle.ring.specs.Runs.{Taken};

    /// Commands were taken with these outcomes, in this order, and nothing in the device is older than what
    /// they did.
    ghost settled: { Self → List Taken → Type 0 };
}
