//! The queue that two registers describe.
ghost use Rattle.std.specs.Prelude.{◌≡◌, ◌≤◌, ◌-◌, ◌*◌, ◌^◌, IfOk};
ghost use Rattle.qindex.specs.Positions.{size};
ghost use Rattle.image.specs.Queues.{IsShown, err_of, judged, waiting_of, with_cons, with_log2, with_prod, without_err};

use crate::fault::ImageFault;
use qindex::{Geometry, Index};

/// The queue that two registers describe.
#[derive(Clone, Copy, Debug, PartialEq, Eq)]
pub(crate) struct Queue {
    pub prod: Index,
    pub cons: Index,
    /// SMMU_CMDQ_CONS as it was given, with ERR.
    pub register: u32,
}

/// SMMU_CMDQ_CONS.ERR.
pub(crate) fn err_of(cons: u32) -> u32
    ensures value { result ≡ err_of cons }
    ensures within { result * 2 ^ 24 ≤ cons }
{
    (cons >> 24) & 0x7f
}

impl Queue {
    /// How many commands wait.
    pub(crate) fn waiting(&self) -> u32
        requires { self.now.prod.geometry ≡ self.now.cons.geometry }
        ensures { result ≡ waiting_of self.now }
    {
        self.prod.distance(self.cons)
    }

    /// How many slots don't wait.
    pub(crate) fn taken(&self) -> u32
        requires { IsShown self.now }
        ensures { result ≡ size self.now.cons.geometry - waiting_of self.now }
    {
        self.cons.geometry().size() - self.waiting()
    }
}

fn judged(queue: Queue) -> Result<Queue, ImageFault>
    requires { queue.prod.geometry ≡ queue.cons.geometry }
    ensures value { result ≡ judged queue }
    ensures shown { IfOk result IsShown }
    ensures geometry { IfOk result (λ judged. judged.cons.geometry ≡ queue.cons.geometry) }
{
    let waiting = queue.waiting();
    if waiting <= queue.cons.geometry().size() {
        Ok(queue)
    } else {
        Err(ImageFault::BadDistance(waiting))
    }
}

fn with_cons(geometry: Geometry, prod: Index, cons: Option<u32>) -> Result<Queue, ImageFault>
    requires { prod.geometry ≡ geometry }
    ensures value { result ≡ with_cons geometry prod.number cons }
    ensures shown { IfOk result IsShown }
    ensures geometry { IfOk result (λ queue. queue.cons.geometry ≡ geometry) }
{
    let Some(register) = cons else {
        return Err(ImageFault::BadCons);
    };
    let number = register - (err_of(register) << 24);
    match Index::new(geometry, number) {
        Some(cons) => judged(Queue {
            prod,
            cons,
            register,
        }),
        None => Err(ImageFault::BadCons),
    }
}

/// Judges the registers of a queue of this size.
pub(crate) fn with_prod(
    geometry: Geometry,
    prod: Option<u32>,
    cons: Option<u32>,
) -> Result<Queue, ImageFault>
    ensures value { result ≡ with_prod geometry prod cons }
    ensures shown { IfOk result IsShown }
    ensures geometry { IfOk result (λ queue. queue.cons.geometry ≡ geometry) }
{
    let Some(number) = prod else {
        return Err(ImageFault::BadProd);
    };
    match Index::new(geometry, number) {
        Some(prod) => with_cons(geometry, prod, cons),
        None => Err(ImageFault::BadProd),
    }
}

/// Returns the queue, or what is wrong with its size and registers.
pub(crate) fn with_log2(
    log2: u32,
    prod: Option<u32>,
    cons: Option<u32>,
) -> Result<Queue, ImageFault>
    ensures value { result ≡ with_log2 log2 prod cons }
    ensures shown { IfOk result IsShown }
{
    match Geometry::new(log2) {
        Some(geometry) => with_prod(geometry, prod, cons),
        None => Err(ImageFault::BadLog2),
    }
}
