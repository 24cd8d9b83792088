//! The steps of the senders.
ghost use Rattle.std.specs.Prelude.{◌≡◌, ◌<◌, ◌≤◌, Some, Ok, true, false};
ghost use Rattle.ringcore.specs.declared.machine.step.Step.TheVariants.{Look, Write, Flip, Close};
ghost use Rattle.ringcore.specs.machine.Core.{reserving, HasNoFault, FindsControl, IsTakenOrRefused};

use crate::laws;
use crate::laws::steps_law;
use crate::machine::places::{half_of, half_of_number, index_of};
use crate::machine::{Core, Seen, StepFault};
use crate::memory::new_flags;
use cmdcodec::Raw;
use qindex::{
    Control, control_words_say_their_control, indexes_tell_place_and_wrap_bit,
    indexes_tell_the_queue,
};

impl Core {
    /// A load of the control word, by a sender, or by the consumer if none is named.
    ///
    /// Errors: F8 if there is no such sender.
    #[inline]
    pub fn look(&mut self, who: Option<u32>) -> Result<Seen, StepFault>
        ensures { IsTakenOrRefused self.old self.new (Look who) result }
    {
        match who {
            None => Ok(self.consumer_looks()),
            Some(sender) => self.sender_looks(sender),
        }
    }

    fn sender_looks(&mut self, sender: u32) -> Result<Seen, StepFault>
        ensures { IsTakenOrRefused self.old self.new (Look (Some sender)) result }
    {
        if sender as usize >= self.senders.len() {
            return Err(StepFault::NoSuchPlace);
        }
        let found = self.control();
        laws::look();
        self.senders[sender as usize].looks(&found);
        Ok(Seen::Word(found))
    }

    /// An or of the control word with the closed bit, by a sender.
    ///
    /// Errors: F8 if there is no such sender.
    pub fn close(&mut self, sender: u32) -> Result<Seen, StepFault>
        ensures { IsTakenOrRefused self.old self.new (Close sender) result }
    {
        if sender as usize >= self.senders.len() {
            return Err(StepFault::NoSuchPlace);
        }
        laws::close();
        self.words.close();
        Ok(Seen::Word(self.control()))
    }

    /// A store of a half, 0 (lo) or 1 (hi), of the command that the sender's reservation has for this slot.
    ///
    /// Errors: F8 if there is no such sender, slot or half; F2 if no open reservation holds the slot, F1 if
    /// another sender's does; F3 if the slot is flipped.
    #[inline]
    pub fn write(&mut self, sender: u32, slot: u32, half: u32) -> Result<Seen, StepFault>
        ensures { IsTakenOrRefused self.old self.new (Write sender slot half) result }
    {
        let offset = self.write_offset(sender, slot, half)?;
        let half = half_of_number(half);
        laws::write();
        steps_law();
        let view = &mut self.senders[sender as usize];
        let word = half_of(half, view.command(offset));
        let index = index_of(self.words.geometry(), view.start() + u64::from(offset));
        self.words.write(index, half, word);
        view.writes(offset, half);
        Ok(Seen::Written)
    }

    /// An exclusive or of a flag word, for `count` slots of the sender's reservation, from this one on.
    ///
    /// Errors: F8 if there is no such sender or slot, if the count isn't 1 to 64 or is above the ring's size,
    /// or if the slots leave their flag word; F2 if one of them is in no open reservation, F1 if others hold
    /// those that aren't its own; F3 if one is flipped, F4 if a half isn't written.
    #[inline]
    pub fn flip(&mut self, sender: u32, slot: u32, count: u32) -> Result<Seen, StepFault>
        ensures { IsTakenOrRefused self.old self.new (Flip sender slot count) result }
    {
        let offset = self.flip_offset(sender, slot, count)?;
        laws::flip();
        steps_law();
        indexes_tell_place_and_wrap_bit();
        let geometry = self.words.geometry();
        let view = &mut self.senders[sender as usize];
        let first = view.start() + u64::from(offset);
        self.words.flip(index_of(geometry, first), count);
        view.flips(offset, count);
        Ok(Seen::Flipped(new_flags(geometry, first, count)))
    }

    /// An exchange of the control word that the sender looked at, to reserve these commands, with or without
    /// a closing sync after them.
    ///
    /// Errors: F8 if there is no such sender; F10 if a reservation is open or all batches are made; F11 if
    /// the body is empty, has more than 63 commands, or has a CMD_SYNC; F9 if there was no look since the
    /// last exchange, or if by that look the ring is closed or has no room.
    pub fn reserve(&mut self, sender: u32, body: &[Raw], closes: bool) -> Result<Seen, StepFault>
        ensures { IsTakenOrRefused self.old self.new (reserving sender body.now closes) result }
    {
        if sender as usize >= self.senders.len() {
            return Err(StepFault::NoSuchPlace);
        }
        let geometry = self.words.geometry();
        let view = &self.senders[sender as usize];
        control_words_say_their_control();
        indexes_tell_the_queue();
        if let Some(fault) = view.reserve_fault(geometry, body, closes) {
            return Err(fault);
        }
        let found = self.control();
        if view.expects(&found) {
            Ok(self.win(sender, body, closes, &found))
        } else {
            Ok(self.lose(sender, body, closes, &found))
        }
    }

    /// Reserves a batch: the control word is the one that the sender looked at.
    fn win(&mut self, sender: u32, body: &[Raw], closes: bool, found: &Control) -> Seen
        requires there { sender < self.old.words.senders }
        requires accepted { HasNoFault self.old (reserving sender body.now closes) (λ run. FindsControl self.old run sender found.now true) }
        ensures { IsTakenOrRefused self.old self.new (reserving sender body.now closes) (Ok result) }
    {
        laws::reserve_won();
        steps_law();
        indexes_tell_the_queue();
        let head = self.consumer.taken();
        let start = head + u64::from(found.prod.distance(found.cons));
        let many = body.len() as u32 + u32::from(closes);
        let after = Control {
            prod: found.prod.forward(many),
            cons: found.cons,
            closed: found.closed,
        };
        self.words.exchange(found, &after);
        let number = self.senders[sender as usize].wins(sender, body, closes, start);
        Seen::Reserved {
            first: found.prod,
            number,
        }
    }

    /// Reserves nothing: the control word is another.
    fn lose(&mut self, sender: u32, body: &[Raw], closes: bool, found: &Control) -> Seen
        requires there { sender < self.old.words.senders }
        requires accepted { HasNoFault self.old (reserving sender body.now closes) (λ run. FindsControl self.old run sender found.now false) }
        ensures { IsTakenOrRefused self.old self.new (reserving sender body.now closes) (Ok result) }
    {
        steps_law();
        self.senders[sender as usize].loses();
        Seen::Lost(*found)
    }
}
