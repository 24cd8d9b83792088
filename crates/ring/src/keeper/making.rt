//! Makes a ring whose seats the keeper has from the start.
ghost use Rattle.std.specs.Prelude.{◌≡◌, ◌≤◌, None, OnOk, IfOk, IfErr};
ghost use Rattle.qindex.specs.Indexes.{IsGeometry};
ghost use Rattle.ringcore.specs.Limits.{most_senders};
ghost use Rattle.ringcore.specs.RingFaults.{IsNotMade, number_fault};
ghost use Rattle.ring.specs.Keepers.{IsKept};

use crate::consumer::{Commands, Lent};
use crate::device::Device;
use crate::keeper::{IdleConsumer, Keeper};
use crate::ring::Ring;
use crate::table::Parameters;
use atomic_table::Table;
use qindex::{Geometry, Index};
use ringcore::{RingFault, laws, ring_geometry, words};
use std::alloc::{AllocError, Global};

impl Keeper {
    /// Creates a ring of `2^log2` slots with its keeper and its idle consumer; `IdleSender::new` makes an
    /// idle sender. Each sender may reserve `max_batches` batches.
    ///
    /// Errors: those of `Ring::new`.
    pub fn new<D: Device>(
        alloc: Global,
        log2: u32,
        senders: u32,
        max_batches: u32,
    ) -> Result<(Ring, Keeper, IdleConsumer<D>), RingFault>
        ensures numbers { OnOk result (number_fault log2 senders max_batches ≡ None) }
        ensures made { IfOk result (λ r. IsKept log2 senders max_batches r.0 r.1 r.2) }
        ensures refused { IfErr result (λ fault.
            IsNotMade (number_fault log2 senders max_batches) fault) }
    {
        let geometry = ring_geometry(log2, senders, max_batches)?;
        match Keeper::open(alloc, geometry, senders, max_batches) {
            Ok(parts) => Ok(parts),
            Err(error) => Err(RingFault::Memory(error)),
        }
    }

    /// Makes a ring before its first step.
    fn open<D: Device>(
        alloc: Global,
        geometry: Geometry,
        senders: u32,
        max_batches: u32,
    ) -> Result<(Ring, Keeper, IdleConsumer<D>), AllocError>
        requires geometry { IsGeometry geometry }
        requires some { 1 ≤ senders }
        requires senders { senders ≤ most_senders }
        ensures { IfOk result (λ r. IsKept geometry senders max_batches r.0 r.1 r.2) }
    {
        laws::begin();
        let made_with = Parameters {
            geometry,
            senders,
            max_batches,
        };
        let commands = Commands::new(alloc)?;
        let zeros = vec![in alloc; 0; words(geometry, senders)]?;
        let (table, seat) = Table::of_words(alloc, zeros.as_slice(), &made_with)?;
        let consumer = IdleConsumer {
            head: Index::new(geometry, 0).unwrap(),
            taken: 0,
            commands,
            lent: Lent::nothing(),
        };
        Ok((Ring { table, made_with }, Keeper { seat }, consumer))
    }
}
