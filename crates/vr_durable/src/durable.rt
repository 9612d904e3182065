//! A replica that writes down what it takes up.

ghost use Rattle.std.specs.Prelude.{◌≡◌, ◌≤◌, ◌<◌, ◌++◌, [], length, Err, IfSome, IfNone, OnSome, MatchOption, OnErr, OnOk};
ghost use Rattle.il_model.specs.declared.command.Command.{Command};
ghost use Rattle.il_model.specs.declared.command.Answer.{Answer};
ghost use Rattle.laws_pauses.specs.Pauses.{begun};
ghost use Rattle.vr_model.specs.Membership.{Membership};
ghost use Rattle.vr_model.specs.Replicas as model;
ghost use Rattle.vr_outbox.specs.Stages.{behind_begin, behind_end, behind_put};
ghost use Rattle.vr_outbox.specs.declared.stage.Stage.TheVariants.{Flushed, Unflushed};
ghost use Rattle.vr_replica.specs.Standing as replicas;
ghost use Rattle.vr_durable.specs.declared.fault.TakeFault.TheVariants.{Down};
ghost use Rattle.vr_durable.specs.Standing.{HandsOut, Misses, Puts, Same, Stands, Stays, TakesUp};

use crate::fault::TakeFault;
use crate::putting::Pending;
use std::alloc::Global;
use std::mem;
use vr_model::{Event, Sends};
use vr_outbox::Outbox;
use vr_replica::Replica;
use vr_resumed::step;

/// A replica, what it says and doesn't hand out yet, and what is to be written of what it took up.
#[derive(Drop)]
pub struct Durable {
    pub(crate) replica: Replica,
    pub(crate) outbox: Outbox,
    pub(crate) pending: Pending,
    /// The view that its store keeps.
    pub(crate) saved: u64,
}

impl Durable {
    /// A replica that begins a file, or goes on behind a file's records with this sum; its store keeps this view.
    #[tactic(auto, using(crate::proofs::Saying::begins))]
    pub fn new(alloc: Global, replica: Replica, sum: u64, saved: u64) -> Durable
        ensures begun { (m : Membership) (r : model.ReplicaState Command) → replicas.StandsFor replica m r
            → Stands result m (begun {C = Command} {A = Answer} r) }
        ensures stage { result.outbox.stage ≡ Flushed }
        ensures pending { (result.pending.bytes.items ≡ []) × (result.pending.sum ≡ sum) }
        ensures view { result.saved ≡ saved }
    {
        Durable {
            replica,
            outbox: Outbox::new(alloc),
            pending: Pending {
                bytes: Vec::new(alloc),
                sum,
            },
            saved,
        }
    }

    /// Takes an event up: its record is to be written, the rule is done, and what that sends is held. `NotKept` is
    /// answered where it's no event that is kept, and `Memory` where memory runs out: behind both nothing was taken up.
    /// Behind `Down` the value is to be let go.
    pub fn take_up(&mut self, alloc: Global, event: Event) -> Result<(), TakeFault>
        ensures taken { OnOk result (TakesUp self.old event self.new) }
        ensures put { OnOk result (Puts self.old.pending event self.new.pending) }
        ensures stage { OnOk result (self.new.outbox.stage ≡ behind_put self.old.outbox.stage) }
        ensures view { self.new.saved ≡ self.old.saved }
        ensures missed { OnErr result ((result ≡ Err Down → ⊥) → Misses self.old event self.new) }
        ensures taken_back { OnErr result ((result ≡ Err Down → ⊥) → Same self.old.pending self.new.pending) }
        ensures stage_stays { OnErr result (self.new.outbox.stage ≡ self.old.outbox.stage) }
    {
        let length = self.pending.bytes.len();
        let sum = self.pending.sum;
        self.pending.put(alloc, &event)?;
        match step(&mut self.replica, alloc, event) {
            Ok(sends) => self.hold(alloc, sends),
            Err(fault) => {
                self.pending.take_back(length, sum);
                Err(TakeFault::from(fault))
            }
        }
    }

    /// Holds what a step sends. Where memory runs out the replica goes down: it goes on from its journal.
    fn hold(&mut self, alloc: Global, sends: Sends) -> Result<(), TakeFault>
        ensures held { OnOk result (self.new.outbox.held ≡ self.old.outbox.held ++ sends.items) }
        ensures stage { OnOk result (self.new.outbox.stage ≡ behind_put self.old.outbox.stage) }
        ensures replica { OnOk result (self.new.replica ≡ self.old.replica) }
        ensures down { OnErr result (result ≡ Err Down) }
        ensures stage_stays { OnErr result (self.new.outbox.stage ≡ self.old.outbox.stage) }
        ensures pending { self.new.pending ≡ self.old.pending }
        ensures view { self.new.saved ≡ self.old.saved }
    {
        match self.outbox.take_up(sends, true) {
            Ok(()) => Ok(()),
            Err(_) => {
                self.replica.crash(alloc);
                Err(TakeFault::Down)
            }
        }
    }

    /// What it is.
    pub fn replica(&self) -> &Replica
        ensures { result.now ≡ self.now.replica }
    {
        &self.replica
    }

    /// Lets go of all else: what is held is handed out by none, as messages that are lost, and its file is left for
    /// another one, which has what it is as the base.
    pub fn into_replica(self) -> Replica
        ensures { result ≡ self.replica }
    {
        self.replica
    }

    /// So many bytes are to be written.
    pub fn unwritten(&self) -> usize
        ensures { result ≡ length self.now.pending.bytes.items }
    {
        self.pending.bytes.as_slice().len()
    }

    /// Begins a flush, where some of what was taken up waits for one and none is under way: what is to be written
    /// behind the file's records, and flushed.
    #[tactic(auto, using(crate::proofs::Saying::stays))]
    pub fn begin_flush(&mut self, alloc: Global) -> Option<Vec<u8>>
        ensures some { IfSome result (λ bytes. bytes.items ≡ self.old.pending.bytes.items) }
        ensures begun { OnSome result (self.old.outbox.stage ≡ Unflushed) }
        ensures rest { OnSome result (self.new.pending.bytes.items ≡ []) }
        ensures none { IfNone result (self.old.outbox.stage ≡ Unflushed → ⊥) }
        ensures left { IfNone result (self.new.pending.bytes.items ≡ self.old.pending.bytes.items) }
        ensures sum { self.new.pending.sum ≡ self.old.pending.sum }
        ensures stage { self.new.outbox.stage ≡ behind_begin self.old.outbox.stage }
        ensures stays { Stays self.old self.new }
        ensures view { self.new.saved ≡ self.old.saved }
    {
        if self.outbox.begin_flush() {
            Some(mem::replace(&mut self.pending.bytes, Vec::new(alloc)))
        } else {
            None
        }
    }

    /// The flush under way is over.
    #[tactic(auto, using(crate::proofs::Saying::stays))]
    pub fn end_flush(&mut self)
        ensures stage { self.new.outbox.stage ≡ behind_end self.old.outbox.stage }
        ensures stays { Stays self.old self.new }
        ensures pending { self.new.pending ≡ self.old.pending }
        ensures view { self.new.saved ≡ self.old.saved }
    {
        self.outbox.end_flush();
    }

    /// The view that is to be saved before anything more is handed out, if its store doesn't keep that.
    pub fn unsaved_view(&self) -> Option<u64>
        ensures { MatchOption result (self.now.replica.core.stored_view ≤ self.now.saved)
            (λ view. (view ≡ self.now.replica.core.stored_view) × (self.now.saved < view)) }
    {
        let view = self.replica.core.stored_view;
        if self.saved < view { Some(view) } else { None }
    }

    /// Its store keeps this view.
    #[tactic(auto, using(crate::proofs::Saying::stays))]
    pub fn saved(&mut self, view: u64)
        ensures keeps { self.new.saved ≡ view }
        ensures stays { Stays self.old self.new }
        ensures pending { self.new.pending ≡ self.old.pending }
        ensures stage { self.new.outbox ≡ self.old.outbox }
    {
        self.saved = view;
    }

    /// What may be handed out, in order: all that is held, where all that was put is flushed and no view waits to be
    /// saved; else nothing.
    #[tactic(auto, using(crate::proofs::Saying::hands, crate::proofs::Saying::hands_nothing, crate::proofs::Saying::is_flushed, crate::proofs::Saying::stays_at))]
    pub fn hand_out(&mut self, alloc: Global) -> Sends
        ensures handed { HandsOut self.old self.new result.items }
        ensures flushed { (result.items ≡ [] → ⊥) → self.old.outbox.stage ≡ Flushed }
        ensures saved { (result.items ≡ [] → ⊥) → self.old.replica.core.stored_view ≤ self.old.saved }
        ensures stage { self.new.outbox.stage ≡ self.old.outbox.stage }
        ensures pending { self.new.pending ≡ self.old.pending }
        ensures view { self.new.saved ≡ self.old.saved }
    {
        if self.saved < self.replica.core.stored_view {
            return Vec::new(alloc);
        }
        self.outbox.hand_out(alloc)
    }
}
