//! What is known of a queue before its image is read.
ghost use Rattle.std.specs.Prelude.{◌≡◌, ◌≤◌, ◌*◌, IfOk, IfSome, None, false, true};
ghost use Rattle.qindex.specs.Positions.{size};
ghost use Rattle.image.specs.Queues.{IsKnown, IsShown, has_length, known_of, log2_of, numbers, queue_in, sized};

use crate::asked::Asked;
use crate::fault::ImageFault;
use crate::queue::{Queue, with_log2, with_prod};
use qindex::Geometry;

/// What is known of a queue before its image is read.
#[derive(Clone, Copy, Debug, PartialEq, Eq)]
pub(crate) enum Known {
    /// The queue, whose size was given.
    Queue(Queue),
    /// The registers. The length of the image says the size.
    Registers { prod: u32, cons: u32 },
}

fn numbers(prod: Option<u32>, cons: Option<u32>) -> Result<Known, ImageFault>
    ensures { result ≡ numbers prod cons }
{
    match (prod, cons) {
        (None, _) => Err(ImageFault::BadProd),
        (Some(_), None) => Err(ImageFault::BadCons),
        (Some(prod), Some(cons)) => Ok(Known::Registers { prod, cons }),
    }
}

/// Returns what the size and the registers tell, or what is wrong with them.
#[tactic(auto, unfolding(crate::specs::Queues::known_of))]
pub(crate) fn known_of(asked: &Asked) -> Result<Known, ImageFault>
    ensures value { result ≡ known_of asked.now }
    ensures known { IfOk result IsKnown }
{
    let Some(log2) = asked.log2 else {
        return numbers(asked.prod, asked.cons);
    };
    match with_log2(log2, asked.prod, asked.cons) {
        Ok(queue) => Ok(Known::Queue(queue)),
        Err(fault) => Err(fault),
    }
}

fn has_length(geometry: Geometry, bytes: usize) -> bool
    ensures { result ≡ has_length bytes geometry }
{
    16 * geometry.size() as usize == bytes
}

/// Returns the geometry of `2^log2` slots if they have so many bytes.
fn of_length(log2: u32, bytes: usize) -> Option<Geometry>
    requires low { 1 ≤ log2 }
    requires high { log2 ≤ 19 }
    ensures some { IfSome result (λ geometry. (geometry ≡ log2) × (has_length bytes log2 ≡ true)) }
    ensures none { result ≡ None → has_length bytes log2 ≡ false }
{
    match Geometry::new(log2) {
        Some(geometry) if has_length(geometry, bytes) => Some(geometry),
        _ => None,
    }
}

/// Returns the geometry of the queue that has so many bytes.
pub(crate) fn geometry_of(bytes: usize) -> Option<Geometry>
    ensures value { result ≡ log2_of bytes }
    ensures length { IfSome result (λ geometry. bytes ≡ 16 * size geometry) }
{
    'sizes: for log2 in 1..20 {
        if let Some(geometry) = of_length(log2, bytes) {
            return Some(geometry);
        }
    }
    None
}

fn sized(bytes: usize, prod: u32, cons: u32) -> Result<Queue, ImageFault>
    ensures value { result ≡ sized (log2_of bytes) bytes prod cons }
    ensures shown { IfOk result IsShown }
    ensures length { IfOk result (λ queue. bytes ≡ 16 * size queue.cons.geometry) }
{
    match geometry_of(bytes) {
        Some(geometry) => with_prod(geometry, Some(prod), Some(cons)),
        None => Err(ImageFault::BadLength(bytes)),
    }
}

impl Known {
    /// Returns the queue whose image has so many bytes, or what is wrong with it.
    pub(crate) fn queue_in(&self, bytes: usize) -> Result<Queue, ImageFault>
        requires { IsKnown self.now }
        ensures value { result ≡ queue_in self.now bytes }
        ensures shown { IfOk result IsShown }
        ensures length { IfOk result (λ queue. bytes ≡ 16 * size queue.cons.geometry) }
    {
        match *self {
            Known::Queue(queue) => {
                if bytes == 16 * queue.cons.geometry().size() as usize {
                    Ok(queue)
                } else {
                    Err(ImageFault::BadLength(bytes))
                }
            }
            Known::Registers { prod, cons } => sized(bytes, prod, cons),
        }
    }
}
