//! All senders meet the engine, which then looks.
ghost use Rattle.std.specs.Prelude.{◌≡◌, ◌↔◌, ◌≤◌, length, false, IsTrue};
ghost use Rattle.ringcore.specs.world.World.{world, control as control_of};
ghost use Rattle.ring.specs.Finishing.{AreAll};
ghost use Rattle.renewal.specs.Queues.{HasLooked, EngineHasLooked, SawWaiting, AreAtOnePlace};
ghost use Rattle.renewal.specs.Meetings.{HaveMet, IsOfSize};

use crate::queue::Queue;
use engine::Engine;
use ring::{Ring, Sender};

/// The weight of SMMU_CMDQ_CONS.ERR, bits 30:24.
const ERR: u32 = 0x0100_0000;

/// Has all senders meet the engine, which then looks. Returns whether a command is reserved that isn't taken.
pub fn is_waiting(queue: &mut Queue) -> bool
    requires senders { AreAll queue.old.ring queue.old.senders.items }
    requires ring { queue.old.engine.consumer.ring ≡ queue.old.ring }
    ensures looked { HasLooked queue.old queue.new }
    ensures waiting { IsTrue result ↔ SawWaiting queue.new.engine.consumer.trail }
    ensures none { result ≡ false
        → AreAtOnePlace (control_of queue.old.ring.made_with.geometry
        (world queue.new.engine.consumer.history)) }
    ensures size { 1 ≤ length queue.old.senders.items → IsOfSize queue.old.ring }
{
    meet_all(&queue.ring, &mut queue.senders, &mut queue.engine);
    sees_waiting(&mut queue.engine, &queue.ring)
}

/// An engine looks: whether a command is reserved that it hasn't taken. Senders that it hasn't met may have reserved, and
/// may go on to.
pub fn sees_waiting(engine: &mut Engine, ring: &Ring) -> bool
    requires { engine.old.consumer.ring ≡ ring.now }
    ensures looked { EngineHasLooked engine.old engine.new }
    ensures waiting { IsTrue result ↔ SawWaiting engine.new.consumer.trail }
    ensures none { result ≡ false
        → AreAtOnePlace (control_of ring.now.made_with.geometry
        (world engine.new.consumer.history)) }
    ensures ring { engine.new.consumer.ring ≡ engine.old.consumer.ring }
{
    let found = engine.registers(ring);
    let (err, _, _) = engine.error();
    found.prod != found.cons - err * ERR
}

/// Has the engine meet each sender in turn.
fn meet_all(ring: &Ring, senders: &mut Vec<Sender>, engine: &mut Engine)
    requires senders { AreAll ring.now senders.old.items }
    requires ring { engine.old.consumer.ring ≡ ring.now }
    ensures { HaveMet ring.now senders.old.items senders.new.items engine.old engine.new }
{
    for sender in senders.iter_mut() {
        engine.told(ring, sender);
    }
}
