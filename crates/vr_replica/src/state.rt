//! A replica, and what it shows.

ghost use Rattle.std.specs.Prelude.{◌≡◌, ◌↔◌, ◌⊎◌, ◌<◌, ◌&&◌, length, IfOk, IfSome, IsTrue, None, Some, MatchOption};
ghost use Rattle.std.specs.Prelude.{if◌then◌else◌};
ghost use Rattle.std.specs.List.{slice_get};
ghost use Rattle.ctl_model.specs.Snapshots.{snapshot_of};
ghost use Rattle.il_model.specs.declared.command.Command.{Command};
ghost use Rattle.vr_model.specs.Membership.{Membership, member};
ghost use Rattle.vr_model.specs.Replicas as model;
ghost use Rattle.vr_model.specs.Rules as rules;
ghost use Rattle.vr_model.specs.StandsFor.{request_of, status_of};
ghost use Rattle.vr_model.specs.World as world;
ghost use Rattle.vr_core.specs.StandsFor.{group_of};
ghost use Rattle.vr_model.specs.Checkpoints.{requests_of};
ghost use Rattle.vr_replica.specs.Standing.{StandsFor, IsDown};
ghost use Rattle.vr_replica.specs.Scans.{last_scan_of};

use crate::scans::{ScanInputs, last_scan};
use il_loader::Image;
use il_model::{Budget, Snapshot};
use std::alloc::{AllocError, Global};
use vr_core::Core;
use vr_model::{Config, Request, Standing, Status};

/// A replica of a group. What it keeps in memory goes with a crash; what its store keeps stays.
#[derive(Drop)]
pub struct Replica {
    pub core: Core,
}

impl Replica {
    /// The replica of this number, normal in view 0 and with an empty log. It fails only where memory runs out.
    pub fn new(
        alloc: Global,
        config: Config,
        number: u8,
        image: Image,
        budget: Budget,
    ) -> Result<Replica, AllocError>
        ensures { IfOk result (λ replica. StandsFor replica
            (member (group_of config.f image budget.instructions) number) world.first_replica) }
    {
        Ok(Replica {
            core: Core::new(alloc, config, number, image, budget)?,
        })
    }

    /// The replica of this number, down: it waits for a restart. It fails only where memory runs out.
    pub fn down(
        alloc: Global,
        config: Config,
        number: u8,
        image: Image,
        budget: Budget,
    ) -> Result<Replica, AllocError>
        ensures { IfOk result (λ replica. (r : model.ReplicaState Command)
            → StandsFor replica (member (group_of config.f image budget.instructions) number) (world.down r)) }
    {
        Ok(Replica {
            core: Core::down(alloc, config, number, image, budget)?,
        })
    }

    /// A crash: it is down until a restart, and has lost all but its store. It takes no memory.
    pub fn crash(&mut self, alloc: Global)
        ensures { (m : Membership) (r : model.ReplicaState Command) → StandsFor self.old m r
            → StandsFor self.new m (world.down r) }
    {
        self.core.crash(alloc);
    }

    /// Whether its view goes on normally.
    pub fn is_normal(&self) -> bool
        ensures { (m : Membership) (r : model.ReplicaState Command) → StandsFor self.now m r
            → result ≡ model.is_normal r.status }
    {
        match self.core.status {
            Status::Normal => true,
            Status::ViewChange | Status::Recovering | Status::Down => false,
        }
    }

    /// Whether it is down.
    pub fn is_down(&self) -> bool
        ensures told { (m : Membership) (r : model.ReplicaState Command) → StandsFor self.now m r
            → result ≡ model.is_down r.status }
        ensures status { IsTrue result ↔ IsDown self.now }
    {
        match self.core.status {
            Status::Down => true,
            Status::Normal | Status::ViewChange | Status::Recovering => false,
        }
    }

    /// What it shows of itself: its status, its view (0 while it is down), and whether it is the normal primary of that
    /// view.
    pub fn standing(&self) -> Standing
        ensures status { (m : Membership) (r : model.ReplicaState Command) → StandsFor self.now m r
            → status_of result.status ≡ r.status }
        ensures view { (m : Membership) (r : model.ReplicaState Command) → StandsFor self.now m r
            → result.view ≡ (if model.is_down r.status then 0 else r.view) }
        ensures is_primary { (m : Membership) (r : model.ReplicaState Command) → StandsFor self.now m r
            → result.is_primary ≡ model.is_normal r.status && rules.is_primary m.f m.number m.answer r }
    {
        if self.is_down() {
            return Standing {
                status: Status::Down,
                view: 0,
                is_primary: false,
            };
        }
        self.core.standing()
    }

    /// How many entries of its log it has executed.
    pub fn commit(&self) -> u64
        ensures { (m : Membership) (r : model.ReplicaState Command) → StandsFor self.now m r
            → result ≡ r.commit_number }
    {
        self.core.commit_number
    }

    /// How many entries its log has, 0 while it is down.
    pub fn op_number(&self) -> u64
        ensures { (m : Membership) (r : model.ReplicaState Command) → StandsFor self.now m r
            → result ≡ length r.log }
    {
        self.core.op_number()
    }

    /// What the last Scan of its log was submitted with, if that is among the entries that it keeps: all that it has
    /// not executed, and of the others those past its checkpoint. `None` says nothing of the entries that the
    /// checkpoint stands in place of.
    pub fn last_scan(&self) -> Option<ScanInputs>
        ensures kept { result ≡ last_scan_of (requests_of self.now.core.log.entries) }
        ensures last { (m : Membership) (r : model.ReplicaState Command) → StandsFor self.now m r
            → IfSome result (λ scan. last_scan_of r.log ≡ Some scan) }
    {
        last_scan(self.core.log.entries())
    }

    /// A snapshot of its controller, which has executed its committed entries. It fails only where memory runs out.
    pub fn snapshot(&self, alloc: Global) -> Result<Snapshot, AllocError>
        ensures { IfOk result
            (λ s. s ≡ snapshot_of self.now.core.controller.program self.now.core.controller.control) }
    {
        self.core.controller.save(alloc)
    }

    /// The entry of its log at this place, from 0. Of those that it has executed it may keep only the last ones.
    pub fn entry(&self, place: u64) -> Option<&Request>
        ensures { (m : Membership) (r : model.ReplicaState Command) → StandsFor self.now m r
            → MatchOption result ((slice_get r.log place ≡ None) ⊎ (place < r.commit_number))
            (λ entry. slice_get r.log place ≡ Some (request_of entry.now)) }
    {
        self.core.log.get(place)
    }
}
