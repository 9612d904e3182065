//! A durable replica, and the file that its records go to.

ghost use Rattle.std.specs.Prelude.{◌≡◌, ◌<◌, ◌≤◌, ◌↔◌, [], Err, IsTrue, IfSome, List, MatchOption, OnErr, IfNone, OnOk, length};
ghost use Rattle.vr_journal.specs.Records.{Entry, first_sum, spelt, sum_behind_all};
ghost use Rattle.vr_kept.specs.Inputs.{longest};
ghost use Rattle.vr_outbox.specs.declared.stage.Stage.TheVariants.{Flushed};
ghost use Rattle.vr_durable.specs.Standing.{HandsOut, Misses, Stays as DurableStays, TakesUp};
ghost use Rattle.vr_durable.specs.declared.fault.TakeFault.TheVariants.{Down};
ghost use Rattle.vr_filed.specs.Filing.{Begins, Holds, IsAllFlushed, Makes, Stays, ended, flushed_only, with_put};

use std::alloc::Global;
use vr_disk::Writing;
use vr_durable::{Durable, TakeFault};
use vr_journal::File;
use vr_model::{Event, Sends};
use vr_replica::Replica;

/// A durable replica, the file of its journal that's in use, and how long that is.
#[derive(Drop)]
pub struct Filed {
    pub(crate) durable: Durable,
    pub(crate) file: File,
    /// So many bytes of it are records, with those that are being written.
    pub(crate) length: usize,
}

impl Filed {
    /// A replica that took nothing up yet since this file was flushed, with so many bytes of records.
    #[tactic(auto, using(crate::proofs::Filing::holds_flushed))]
    pub fn new(durable: Durable, file: File, end: usize) -> Filed
        ensures parts { (result.durable ≡ durable) × (result.file ≡ file) × (result.length ≡ end) }
        ensures holds { (es : List Entry) → durable.outbox.stage ≡ Flushed → durable.pending.bytes.items ≡ []
            → durable.pending.sum ≡ sum_behind_all first_sum es → end ≡ length (spelt first_sum es)
            → Holds result (flushed_only es) }
    {
        Filed {
            durable,
            file,
            length: end,
        }
    }

    /// What it is.
    pub fn replica(&self) -> &Replica
        ensures { result.now ≡ self.now.durable.replica }
    {
        self.durable.replica()
    }

    /// Lets go of all else, where its file is to be left for the other one, with what it is as the base.
    pub fn into_replica(self) -> Replica
        ensures { result ≡ self.durable.replica }
    {
        self.durable.into_replica()
    }

    /// Takes an event up, as `Durable::take_up` does: its record waits for the next writing.
    #[tactic(auto, using(crate::proofs::Filing::put_all, crate::proofs::Filing::stays_all))]
    pub fn take_up(&mut self, alloc: Global, event: Event) -> Result<(), TakeFault>
        ensures taken { OnOk result (TakesUp self.old.durable event self.new.durable) }
        ensures put { OnOk result (Makes self.old self.new (with_put event)) }
        ensures missed { OnErr result ((result ≡ Err Down → ⊥) → Misses self.old.durable event self.new.durable) }
        ensures stays { OnErr result ((result ≡ Err Down → ⊥) → Stays self.old self.new) }
        ensures file { (self.new.file ≡ self.old.file) × (self.new.length ≡ self.old.length) }
    {
        self.durable.take_up(alloc, event)
    }

    /// What is to be written now and flushed, if something is and no writing is under way: its completion is told by
    /// `end_flush`. None is given either where the file would be too long.
    #[tactic(auto, using(crate::proofs::Filing::stays_at_none, crate::proofs::Filing::same_records))]
    pub fn begin_flush(&mut self, alloc: Global) -> Option<Writing>
        ensures begins { IfSome result (λ writing. Begins self.old self.new writing) }
        ensures there { IfSome result (λ writing. writing.file ≡ self.old.file) }
        ensures none { IfNone result (Stays self.old self.new) }
        ensures stays { DurableStays self.old.durable self.new.durable }
        ensures file { self.new.file ≡ self.old.file }
    {
        let at = self.length;
        let Some(end) = at.checked_add(self.durable.unwritten()) else {
            return None;
        };
        match self.durable.begin_flush(alloc) {
            Some(bytes) => {
                self.length = end;
                Some(Writing {
                    file: self.file,
                    at,
                    bytes,
                })
            }
            None => None,
        }
    }

    /// The writing under way was done: it's written and flushed.
    #[tactic(auto, using(crate::proofs::Filing::ends_with))]
    pub fn end_flush(&mut self)
        ensures ends { Makes self.old self.new ended }
        ensures stays { DurableStays self.old.durable self.new.durable }
        ensures file { (self.new.file ≡ self.old.file) × (self.new.length ≡ self.old.length) }
    {
        self.durable.end_flush();
    }

    /// The view that is to be saved before anything more is handed out, if its store doesn't keep that.
    pub fn unsaved_view(&self) -> Option<u64>
        ensures { MatchOption result (self.now.durable.replica.core.stored_view ≤ self.now.durable.saved)
            (λ view. (view ≡ self.now.durable.replica.core.stored_view) × (self.now.durable.saved < view)) }
    {
        self.durable.unsaved_view()
    }

    /// Its store keeps this view.
    #[tactic(auto, using(crate::proofs::Filing::same_pending))]
    pub fn saved(&mut self, view: u64)
        ensures keeps { self.new.durable.saved ≡ view }
        ensures stays { DurableStays self.old.durable self.new.durable }
        ensures records { Stays self.old self.new }
    {
        self.durable.saved(view);
    }

    /// What may be handed out, in order: all that is held, where all that was taken up is flushed and no view waits to
    /// be saved; else nothing.
    #[tactic(auto, using(crate::proofs::Filing::all_flushed, crate::proofs::Filing::same_pending))]
    pub fn hand_out(&mut self, alloc: Global) -> Sends
        ensures handed { HandsOut self.old.durable self.new.durable result.items }
        ensures flushed { (result.items ≡ [] → ⊥) → IsAllFlushed self.old }
        ensures saved { (result.items ≡ [] → ⊥) → self.old.durable.replica.core.stored_view ≤ self.old.durable.saved }
        ensures stays { Stays self.old self.new }
    {
        self.durable.hand_out(alloc)
    }

    /// Whether its file is to be left for the other one, with a new base.
    pub fn is_base_due(&self) -> bool
        ensures { IsTrue result ↔ (longest < self.now.length) }
    {
        vr_kept::is_base_due(self.length)
    }
}
