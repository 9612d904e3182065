//! Messages that wait for a flush.

ghost use Rattle.std.specs.Prelude.{◌≡◌, ◌++◌, ◌↔◌, IsTrue, OnOk, OnErr};
ghost use Rattle.vr_outbox.specs.Outboxes.{IsFlushDue, due, empty, behind_take_up, with_stage, without_due};
ghost use Rattle.vr_outbox.specs.Stages.{behind_begin, behind_end};
ghost use Rattle.vr_outbox.specs.declared.stage.Stage.TheVariants.{Unflushed};

use crate::stage::Stage;
use std::alloc::{AllocError, Global};
use std::marker::Model;
use std::mem;
use vr_model::Sends;

/// What a durable replica says and doesn't hand out yet, in order.
#[derive(Drop)]
pub struct Outbox {
    held: Sends,
    stage: Stage,
}

impl Model for Outbox {
    ghost use Rattle.vr_outbox.specs.Waiting.{Waiting};

    ghost Value = { Waiting };

    ghost view = { λ o. record { held = o.held.items; stage = o.stage } };
}

impl Outbox {
    /// Nothing waits, and nothing was put.
    pub fn new(alloc: Global) -> Outbox
        ensures { result ≡ empty }
    {
        Outbox {
            held: Vec::new(alloc),
            stage: Stage::Flushed,
        }
    }

    /// A step was done: what it sends waits behind what waits already. What the step took up was put, or it changed
    /// nothing and wasn't. Where memory runs out nothing changes.
    pub fn take_up(&mut self, sends: Sends, is_put: bool) -> Result<(), AllocError>
        ensures ok { OnOk result (self.new ≡ behind_take_up self.old sends.items is_put) }
        ensures err { OnErr result (self.new ≡ self.old) }
    {
        let mut sends = sends;
        self.held.append(&mut sends)?;
        if is_put {
            self.stage = self.stage.put();
        }
        Ok(())
    }

    /// Whether something waits that no flush under way is for.
    pub fn is_flush_due(&self) -> bool
        ensures { IsTrue result ↔ IsFlushDue self.now }
    {
        self.stage == Stage::Unflushed && !self.held.is_empty()
    }

    /// A flush begins, of all that was put by now: whether one is to be made. None is where all of that is flushed, or
    /// while one is under way.
    pub fn begin_flush(&mut self) -> bool
        ensures begun { self.new ≡ with_stage self.old (behind_begin self.old.stage) }
        ensures told { IsTrue result ↔ (self.old.stage ≡ Unflushed) }
    {
        let is_begun = self.stage == Stage::Unflushed;
        self.stage = self.stage.begin();
        is_begun
    }

    /// The flush under way is over, and all that was put before it began is flushed.
    pub fn end_flush(&mut self)
        ensures { self.new ≡ with_stage self.old (behind_end self.old.stage) }
    {
        self.stage = self.stage.end();
    }

    /// What may go out now, in order: all that waits, where all that was put is flushed; else nothing.
    pub fn hand_out(&mut self, alloc: Global) -> Sends
        ensures sends { result.items ≡ due self.old }
        ensures rest { self.new ≡ without_due self.old }
    {
        if self.stage == Stage::Flushed {
            mem::replace(&mut self.held, Vec::new(alloc))
        } else {
            Vec::new(alloc)
        }
    }
}
