//! What the thread of a replica does about the epochs of its group.

use crate::host::{Host, HostDeed, Phase};
use crate::joints::is_among;
use net_hello::Epoch;
use plc_epochs::{Kept, Moment, Word};
use plc_host_core::{EpochAction, EpochNotice, Question};
use std::alloc::AllocError;

/// In milliseconds: a machine that isn't reached within that isn't told a word.
const REACHING: u64 = 20;

/// The same of a machine that there is a connection with.
const REACHING_CONNECTED: u64 = 400;

/// For so long a word is tried to be said to a machine, by whether there is a connection with it.
fn within(is_connected: bool) -> u64 {
    if is_connected {
        REACHING_CONNECTED
    } else {
        REACHING
    }
}

impl Host {
    /// Looks at its epoch, which it hasn't begun.
    pub(crate) fn look_waiting(
        &mut self,
        moment: Moment,
        deeds: &mut Vec<HostDeed>,
    ) -> Result<(), AllocError> {
        if let EpochAction::Keeps(kept) = self.keeper.look(moment) {
            deeds.push(HostDeed::Keep(kept))?;
        }
        Ok(())
    }

    /// Says again what it asks, where it's time to.
    pub(crate) fn ask(
        &mut self,
        moment: Moment,
        deeds: &mut Vec<HostDeed>,
    ) -> Result<(), AllocError> {
        let Some(Question { epoch, word }) = self.keeper.take_question(moment) else {
            return Ok(());
        };
        for to in 0..self.setup.config.group_size() {
            if to != self.setup.number {
                self.say(to, epoch, word, deeds)?;
            }
        }
        Ok(())
    }

    /// This is to be said to a machine.
    fn say(
        &self,
        to: u8,
        epoch: Epoch,
        word: Word,
        deeds: &mut Vec<HostDeed>,
    ) -> Result<(), AllocError> {
        let within = within(is_among(self.reached, to));
        deeds.push(HostDeed::Say {
            to,
            epoch,
            word,
            within,
        })?;
        Ok(())
    }

    /// A replica of another machine said hello in this epoch. Number 0 is nobody's.
    pub(crate) fn hear(
        &mut self,
        from: u8,
        epoch: Epoch,
        moment: Moment,
        deeds: &mut Vec<HostDeed>,
    ) -> Result<(), AllocError> {
        let action = self.keeper.hear(from, &epoch, moment);
        self.leave_by(action, deeds)
    }

    /// Its life ends by some actions. Where an epoch is far above its own, an operator puts it there: here at once.
    fn leave_by(
        &mut self,
        action: EpochAction,
        deeds: &mut Vec<HostDeed>,
    ) -> Result<(), AllocError> {
        let kept = match action {
            EpochAction::Leaves(_, kept) => kept,
            EpochAction::Tells(EpochNotice::FarAbove(epoch)) => Kept::Entered(epoch),
            _ => return Ok(()),
        };
        self.phase = Phase::Left;
        self.replica = None;
        deeds.push(HostDeed::Leave(kept))?;
        Ok(())
    }

    /// A word was said to it.
    pub(crate) fn visit(
        &mut self,
        from: u8,
        epoch: Epoch,
        word: Word,
        moment: Moment,
        deeds: &mut Vec<HostDeed>,
    ) -> Result<(), AllocError> {
        if self.phase != Phase::Serving || !self.setup.is_automatic || self.has_failed {
            return Ok(());
        }
        match self.keeper.hear_word(from, &epoch, &word, moment) {
            EpochAction::Answers(word) => self.say(from, epoch, word, deeds),
            action => self.leave_by(action, deeds),
        }
    }
}
