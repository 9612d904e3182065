//! What the outputs of a machine are released to.

ghost use Rattle.std.specs.Prelude.{OnOk, Option};
ghost use Rattle.plc_member.specs.Driving.{Publishes};

use io_image::{Naming, Pen, Release, ReleasedWriter, Stamp};
use plc_host::{Failed, ServiceRuntime};
use std::sync::Arc;
use std::time::Instant;

/// What the outputs of a machine are released to, with the age of the last release.
#[derive(Drop)]
pub(crate) struct Publisher<R: ServiceRuntime, J: Naming, P: Pen<J> + Drop> {
    pub(crate) writer: ReleasedWriter<J, P>,
    pub(crate) stamp: Arc<Stamp<R>>,
}

impl<R: ServiceRuntime, J: Naming, P: Pen<J> + Drop> Publisher<R, J, P> {
    /// Publishes a release. It's as old as the submission of its scan, which was then.
    pub(crate) fn publish(&mut self, release: Release, then: Instant) -> Result<(), Failed>
        ensures { OnOk result (Publishes (Option.Some release) self.old.writer self.new.writer) }
    {
        // Numbers of requests rise, so only memory can be wanting.
        if self.writer.publish(release).is_err() {
            return Err(Failed::Memory);
        }
        self.stamp.mark_from(then);
        Ok(())
    }

    /// What was published last stays: it's as old as the submission of a scan that is held, which was then.
    pub(crate) fn renew(&self, then: Instant) {
        self.stamp.mark_from(then);
    }
}
