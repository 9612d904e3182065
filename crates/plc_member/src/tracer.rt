//! What a machine releases, as its trace has it.

ghost use Rattle.std.specs.Prelude.{◌≡◌, List};
ghost use Rattle.il_model.specs.declared.command.Command.{Command as Asked};
ghost use Rattle.vr_model.specs.Logs.{Request as Entry};
ghost use Rattle.vr_model.specs.StandsFor.{body_with};
ghost use Rattle.plc_member.specs.Driving.{Traces, placed_by, traced_by};

use crate::scans::Entered;
use plc_trace::{Placed, Trace, Traced};
use vr_model::{Body, Message};

/// Puts what a machine releases into its trace, if it has one.
#[derive(Drop)]
pub(crate) struct Tracer {
    /// Of its machine.
    pub(crate) number: u8,
    pub(crate) epoch: u64,
    pub(crate) trace: Option<Trace>,
}

/// Where the scan stands that this client submitted under this number, and to which a reply of this view came; by the
/// last scan of the own log, if it's that one.
fn placed_by(entered: Option<Entered>, client: u8, number: u64, view: u64) -> Option<Placed>
    ensures { result ≡ placed_by entered client number view }
{
    let Entered {
        place,
        client: own,
        number: last,
        moment,
        view: seen,
    } = entered?;
    if own == client && last == number && seen == view {
        Some(Placed { place, moment })
    } else {
        None
    }
}

impl Tracer {
    /// What a trace is told of a message that released something.
    fn traced_by(&self, message: &Message, entered: Option<Entered>) -> Option<Traced>
        ensures { (log : List (Entry Asked))
            → result ≡ traced_by self.now.number self.now.epoch entered (body_with log message.now.body) }
    {
        match message.body {
            Body::Reply {
                view,
                number,
                answer,
            } => Some(Traced {
                epoch: self.epoch,
                placed: placed_by(entered, self.number, number, view),
                number,
                answer,
            }),
            _ => None,
        }
    }

    /// Puts the reply that released something into the trace, if there is one. The last scan of the own log is known.
    pub(crate) fn put(&mut self, message: &Message, entered: Option<Entered>)
        ensures traces { (log : List (Entry Asked))
            → Traces (traced_by self.old.number self.old.epoch entered (body_with log message.now.body))
            self.old.trace self.new.trace }
        ensures same { (self.new.number ≡ self.old.number) × (self.new.epoch ≡ self.old.epoch) }
    {
        let traced = self.traced_by(message, entered);
        if let (Some(trace), Some(traced)) = (&mut self.trace, traced) {
            trace.put(traced);
        }
    }

    /// Whether there is a trace, and it isn't written any more.
    pub(crate) fn has_failed(&self) -> bool {
        match &self.trace {
            Some(trace) => trace.has_failed(),
            None => false,
        }
    }
}
