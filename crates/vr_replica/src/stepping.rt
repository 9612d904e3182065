//! One event of a replica.

ghost use Rattle.std.specs.Prelude.{◌≡◌, ◌≤◌, ◌↔◌, Err, true, false};
ghost use Rattle.std.specs.Result.{IsErrOf};
ghost use Rattle.il_model.specs.declared.command.Command.{Command};
ghost use Rattle.io_model.specs.Streams.{Failed};
ghost use Rattle.vr_model.specs.Membership.{Membership};
ghost use Rattle.vr_model.specs.Replicas as model;
ghost use Rattle.vr_core.specs.StandsFor.{IsSavedAs, Crashes};
ghost use Rattle.vr_replica.specs.declared.fault.StepFault.TheVariants as fault;
ghost use Rattle.vr_replica.specs.Standing.{StandsFor, IsDown, IsDeafTo};
ghost use Rattle.vr_replica.specs.Stepped.{Stepped, Restarted, IsUnfitEvent, DropsEvent};

use crate::fault::StepFault;
use crate::rules::by_rule;
use crate::state::Replica;
use crate::view_store::ViewStore;
use std::alloc::Global;
use vr_model::{Event, Sends};
use vr_recovery::restart;

impl Replica {
    /// One event: its rule is done, with the view that the rule saves safe in the store before anything is sent. What
    /// has no rule is dropped: nothing changes, and nothing is sent.
    ///
    /// `Memory` is answered only where memory ran out and the rule changes or sends something; then the replica is as
    /// it was, and the store may keep the later view. It is answered, too, where a log would make it the primary whose
    /// checkpoint is past what it has executed, which no run comes to. `Store` is answered only where the store failed
    /// in this call; then the replica is down until a restart, and the store keeps the old view or the new one. `Down`
    /// is answered exactly where the replica is down and the event is no restart.
    ///
    /// A message whose checkpoint is later than its commit number, or can't be restored, is dropped; of a
    /// RECOVERYRESPONSE where it would be kept.
    pub fn step<S: ViewStore>(
        &mut self,
        alloc: Global,
        event: Event,
        store: &mut S,
    ) -> Result<Sends, StepFault>
        ensures row { (m : Membership) (r : model.ReplicaState Command) → StandsFor self.old m r
            → Stepped S.load_gives S.save_gives IsSavedAs (StandsFor self.new m) m r store.old store.new event result }
        ensures down { IsErrOf result fault.Down ↔ IsDeafTo self.old event }
        ensures device { IsErrOf result fault.Store → Failed (S.faults store.old) (S.faults store.new) }
        ensures dropped { IsUnfitEvent self.old.core event → DropsEvent self.old self.new store.old store.new result }
        ensures counts { S.faults store.old ≤ S.faults store.new }
    {
        if self.is_down() {
            self.wake(alloc, &event, store)
        } else {
            self.act(alloc, event, store)
        }
    }

    /// While it is up. A view is saved exactly where the core's stored view rose.
    fn act<S: ViewStore>(
        &mut self,
        alloc: Global,
        event: Event,
        store: &mut S,
    ) -> Result<Sends, StepFault>
        ensures row { (m : Membership) (r : model.ReplicaState Command) → StandsFor self.old m r
            → model.is_down r.status ≡ false
            → Stepped S.load_gives S.save_gives IsSavedAs (StandsFor self.new m) m r store.old store.new event result }
        ensures up { IsErrOf result fault.Down → ⊥ }
        ensures device { IsErrOf result fault.Store → Failed (S.faults store.old) (S.faults store.new) }
        ensures dropped { IsUnfitEvent self.old.core event → DropsEvent self.old self.new store.old store.new result }
        ensures counts { S.faults store.old ≤ S.faults store.new }
    {
        let stored_view = self.core.stored_view;
        let sends = by_rule(&mut self.core, alloc, event)?;
        if self.core.stored_view <= stored_view {
            return Ok(sends);
        }
        match store.save(self.core.stored_view) {
            Ok(()) => Ok(sends),
            Err(_) => self.go_down(alloc, sends),
        }
    }

    /// The save of a step failed: the replica is down until a restart, and the rule's sends are let go.
    fn go_down(&mut self, alloc: Global, sends: Sends) -> Result<Sends, StepFault>
        ensures answer { result ≡ Err fault.Store }
        ensures down { Crashes self.old.core self.new.core }
    {
        let _ = sends;
        self.core.crash(alloc);
        Err(StepFault::Store)
    }

    /// While it is down only a restart is heard.
    fn wake<S: ViewStore>(
        &mut self,
        alloc: Global,
        event: &Event,
        store: &mut S,
    ) -> Result<Sends, StepFault>
        requires { IsDown self.old }
        ensures row { (m : Membership) (r : model.ReplicaState Command) → StandsFor self.old m r
            → model.is_down r.status ≡ true
            → Stepped S.load_gives S.save_gives IsSavedAs
            (StandsFor self.new m) m r store.old store.new event.now result }
        ensures down { IsErrOf result fault.Down ↔ IsDeafTo self.old event.now }
        ensures device { IsErrOf result fault.Store → Failed (S.faults store.old) (S.faults store.new) }
        ensures dropped { IsUnfitEvent self.old.core event.now
            → DropsEvent self.old self.new store.old store.new result }
        ensures counts { S.faults store.old ≤ S.faults store.new }
    {
        match event {
            Event::Restart(nonce) => self.come_up(alloc, *nonce, store),
            _ => Err(StepFault::Down),
        }
    }

    /// A restart, while it is down.
    fn come_up<S: ViewStore>(
        &mut self,
        alloc: Global,
        nonce: u64,
        store: &mut S,
    ) -> Result<Sends, StepFault>
        requires { IsDown self.old }
        ensures row { (m : Membership) (r : model.ReplicaState Command) → StandsFor self.old m r
            → Restarted S.load_gives S.save_gives IsSavedAs
            (StandsFor self.new m) m r store.old store.new nonce result }
        ensures up { IsErrOf result fault.Down → ⊥ }
        ensures device { IsErrOf result fault.Store → Failed (S.faults store.old) (S.faults store.new) }
        ensures counts { S.faults store.old ≤ S.faults store.new }
    {
        let stored = store.load()?;
        let sends = restart(&mut self.core, alloc, stored.view, nonce)?;
        Ok(sends)
    }
}
