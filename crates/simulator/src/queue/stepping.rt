//! A step of the unit: the engine's own, with a consumer to which the keeper lends its seat.
ghost use Rattle.std.specs.Prelude.{◌≡◌, None};
ghost use Rattle.ring.specs.Runs.{Consumer as ConsumerOf};
ghost use Rattle.ring.specs.Keepers.{own_consumer, IsIdleConsumer, KeepsOthers};
ghost use Rattle.engine.specs.Engines.{AreTogether};
ghost use Rattle.simulator.specs.{AreStepped};

use crate::queue::Queue;
use cmdcodec::legal_words_spell_one_command;
use engine::{StepAnswer, Unit, step_with};
use qindex::indexes_tell_the_queue;
use ring::{IdleConsumer, Keeper, Ring};
use ringcore::laws::consumer_trail;
use ringcore::world_law;

impl Queue {
    /// Takes a step of a unit, at most one command.
    pub(crate) fn step(
        &mut self,
        idle: IdleConsumer<Unit>,
        unit: &mut Unit,
    ) -> (IdleConsumer<Unit>, StepAnswer)
        requires idle { IsIdleConsumer self.old.keeper idle.head idle.taken }
        requires together { AreTogether (own_consumer None self.old.keeper) unit.old }
        ensures stepped { AreStepped self.old.keeper unit.old self.new.keeper unit.new result.1 }
        ensures idle { IsIdleConsumer self.new.keeper result.0.head result.0.taken }
        ensures together { AreTogether (own_consumer None self.new.keeper) unit.new }
        ensures ring { self.new.keeper.ring ≡ self.old.keeper.ring }
    {
        step_lent(&mut self.keeper, &self.ring, idle, unit)
    }
}

/// The same for a keeper, which lends the consumer its seat.
fn step_lent(
    keeper: &mut Keeper,
    ring: &Ring,
    idle: IdleConsumer<Unit>,
    unit: &mut Unit,
) -> (IdleConsumer<Unit>, StepAnswer)
    requires ring { keeper.old.ring ≡ ring.now }
    requires whole { keeper.old.lent ≡ None }
    requires idle { IsIdleConsumer keeper.old idle.head idle.taken }
    requires together { AreTogether (own_consumer None keeper.old) unit.old }
    ensures stepped { AreStepped keeper.old unit.old keeper.new unit.new result.1 }
    ensures idle { IsIdleConsumer keeper.new result.0.head result.0.taken }
    ensures together { AreTogether (own_consumer None keeper.new) unit.new }
    ensures others { KeepsOthers ConsumerOf keeper.old keeper.new }
    ensures whole { keeper.new.lent ≡ None }
    ensures ring { keeper.new.ring ≡ keeper.old.ring }
{
    world_law();
    consumer_trail();
    indexes_tell_the_queue();
    legal_words_spell_one_command();
    let consumer = keeper.lend_consumer(ring, idle);
    let (consumer, answer) = step_with(consumer, unit, ring);
    let idle = keeper.take_consumer(ring, consumer);
    keeper.run_stands();
    (idle, answer)
}
