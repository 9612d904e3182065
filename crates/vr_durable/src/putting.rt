//! What is to be written.

ghost use Rattle.std.specs.Prelude.{◌≡◌, Err, OnErr, OnOk, take};
ghost use Rattle.vr_durable.specs.Standing.{Puts, Same};
ghost use Rattle.vr_durable.specs.declared.fault.TakeFault.TheVariants.{Down};

use crate::fault::TakeFault;
use std::alloc::Global;
use vr_journal::{Kind, put};
use vr_kept::spell;
use vr_model::Event;

/// Records that are to be written behind a file's, and the sum over all of them.
#[derive(Drop)]
pub(crate) struct Pending {
    pub(crate) bytes: Vec<u8>,
    pub(crate) sum: u64,
}

impl Pending {
    /// Puts the record of an event behind the others, or nothing where it fails.
    pub(crate) fn put(&mut self, alloc: Global, event: &Event) -> Result<(), TakeFault>
        ensures put { OnOk result (Puts self.old event.now self.new) }
        ensures err { OnErr result (Same self.old self.new) }
        ensures up { result ≡ Err Down → ⊥ }
    {
        let spelled = spell(alloc, event)?;
        match put(&mut self.bytes, self.sum, Kind::Input, spelled.as_slice()) {
            Ok(sum) => {
                self.sum = sum;
                Ok(())
            }
            Err(_) => Err(TakeFault::Memory),
        }
    }

    /// Takes back what was put behind so many bytes, over which the sum was this.
    pub(crate) fn take_back(&mut self, length: usize, sum: u64)
        ensures bytes { self.new.bytes.items ≡ take length self.old.bytes.items }
        ensures sum { self.new.sum ≡ sum }
    {
        self.bytes.truncate(length);
        self.sum = sum;
    }
}
