//! What decides what a node does next.

ghost use Rattle.std.specs.Prelude.{◌≡◌, ◌↔◌, ℕ, List, IfNone, IfOk, IfSome, IsNone, IsTrue, OnErr, OnOk, None, false};
ghost use Rattle.std.specs.Prelude.{is_some, option_map, true};
ghost use Rattle.std.specs.Duration.{as_nanos};
ghost use Rattle.std.specs.declared.time.Duration.{Duration as Time};
ghost use Rattle.il_model.specs.declared.command.Command.{Command as Asked};
ghost use Rattle.io_driver.specs.Driver.{release_by};
ghost use Rattle.plc_machine.specs.Driving.{Shows, SubmitsScan, TakesReply};
ghost use Rattle.plc_node_core.specs.Actions.{IsDue, led_in};
ghost use Rattle.plc_node_core.specs.Scanning as scanning;
ghost use Rattle.plc_node_core.specs.Trying.{IsUnrefused, given_up, refused_in, unrefused};
ghost use Rattle.plc_node_core.specs.Turns.{Fills, HasPort, IsSameRole, Looks, begins_to_lead};
ghost use Rattle.plc_node_core.specs.declared.role.Action.TheVariants as actions;
ghost use Rattle.vr_client.specs.Client.{SendsAt, answer_by};
ghost use Rattle.vr_model.specs.Logs.{Request as Entry};
ghost use Rattle.vr_model.specs.StandsFor.{body_with};
ghost use Rattle.vr_model.specs.Steps.{Retries};

use crate::filling::fill;
use crate::role::{Action, PortState, Role};
use crate::scan_client::{Answered, ScanClient};
use crate::tries::Tries;
use il_model::InImage;
use io_image::{StageError, Staging};
use plc_machine::{Course, LastScan, NumbersUsedUp, SeenScan};
use std::alloc::{AllocError, Global};
use std::time::Duration;
use vr_model::{Message, Sends};

/// The view that a node leads, if it leads.
fn view_of(course: Course) -> Option<u64>
    ensures { result ≡ led_in course }
{
    match course {
        Course::Leading(lead) => Some(lead.view),
        Course::StandingBy => None,
    }
}

/// Whether a node begins to lead: its replica leads this view, if one, and the node led that one before, if one.
fn begins(leads: Option<u64>, before: Option<u64>) -> bool
    ensures { result ≡ begins_to_lead leads before }
{
    match (leads, before) {
        (Some(view), Some(led)) => view != led,
        (Some(_), None) => true,
        (None, _) => false,
    }
}

/// The moment of a scan that was seen, if one was, and when it came in.
fn last_in(seen: &Option<SeenScan>) -> Option<LastScan>
    ensures { result ≡ option_map (λ s. s.last) seen.now }
{
    match seen {
        Some(seen) => Some(seen.last),
        None => None,
    }
}

/// The inputs of a scan that was seen, if one was.
fn inputs_in(seen: &Option<SeenScan>) -> Option<InImage>
    ensures { result ≡ option_map (λ s. s.inputs) seen.now }
{
    match seen {
        Some(seen) => Some(seen.inputs),
        None => None,
    }
}

impl Role {
    /// Of a node whose port is closed, and that has its group scan by this client.
    pub fn new(scans: ScanClient) -> Role
        ensures { (result.scans ≡ scans) × (result.inherited ≡ None) × (result.port.is_open ≡ false)
            × IsUnrefused result.port.tries }
    {
        Role {
            scans,
            inherited: None,
            port: PortState {
                is_open: false,
                tries: Tries::none(),
            },
        }
    }

    /// The view that it leads, if it leads.
    pub fn led(&self) -> Option<u64>
        ensures { result ≡ led_in self.now.scans.driver.course }
    {
        view_of(self.scans.driver.course())
    }

    /// Whether outputs are shown now.
    pub fn shows(&self, now: Duration) -> bool
        ensures { IsTrue result ↔ Shows now self.now.scans.driver }
    {
        self.scans.driver.shows(now)
    }

    /// Whether its port is open.
    pub fn is_open(&self) -> bool
        ensures { result ≡ self.now.port.is_open }
    {
        self.port.is_open
    }

    /// Whether a scan that is submitted now comes a period late or more.
    pub fn is_scan_late(&self, now: Duration) -> bool
        ensures { result ≡ scanning.is_scan_late self.now.scans.driver.course self.now.scans.period now }
    {
        self.scans.is_scan_late(now)
    }

    /// Whether a scan is to be submitted now: one is due, none waits, and the stage is to get nothing.
    pub(crate) fn is_submit_due(&self, now: Duration) -> bool
        ensures { IsTrue result ↔ IsDue now self.now actions.Submit }
    {
        !self.inherited.is_some() && !self.scans.is_waiting() && self.scans.is_scan_due(now)
    }

    /// When it's to look again, unless something comes before that.
    pub fn next_look(&self, now: Duration) -> Duration
        ensures { as_nanos result ≡ scanning.next_look self.now.scans.driver.course
            (scanning.waits_in self.now.scans.driver) (as_nanos now) }
    {
        self.scans.next_look(now)
    }

    /// Looks at its replica, which leads this view, if it leads, and at the last scan of that one's log, if it has
    /// one. Where it begins to lead, the stage is to get the inputs of that scan.
    #[tactic(auto, using(crate::proofs::Quieting::look_quiet, crate::proofs::Quieting::begins_quiet))]
    pub fn look(
        &mut self,
        leads: Option<u64>,
        seen: &Option<SeenScan>,
        now: Duration,
    ) -> Result<(), NumbersUsedUp>
        ensures looked { OnOk result (Looks leads seen.now now self.old self.new) }
        ensures used_up { OnErr result (IsSameRole self.old self.new) }
    {
        let before = self.led();
        self.scans.look(leads, last_in(seen), now)?;
        if begins(leads, before) {
            self.inherited = inputs_in(seen);
        }
        Ok(())
    }

    /// Whether the stage is to get the inputs that the node inherits, now.
    fn is_fill_due(&self) -> bool
        ensures { (now : Time) → (IsTrue result ↔ IsDue now self.now actions.Fill) }
    {
        self.inherited.is_some() && !self.port.is_open
    }

    /// Whether the port is to close now.
    fn is_close_due(&self, now: Duration) -> bool
        ensures { IsTrue result ↔ IsDue now self.now actions.Close }
    {
        self.port.is_open && !self.shows(now)
    }

    /// The view in which the port is to open now, if it is.
    fn due_view(&self, now: Duration) -> Option<u64>
        ensures some { IfSome result (λ view. IsDue now self.now (actions.Open view)) }
        ensures none { IsNone result → (view : ℕ) → IsDue now self.now (actions.Open view) → ⊥ }
    {
        let view = self.led()?;
        if self.port.is_open {
            return None;
        }
        if self.inherited.is_some() {
            return None;
        }
        if !self.shows(now) {
            return None;
        }
        if self.port.tries.is_due(view, now) {
            Some(view)
        } else {
            None
        }
    }

    /// What is to be done now, if anything.
    pub fn next_action(&self, now: Duration) -> Option<Action>
        ensures some { IfSome result (λ action. IsDue now self.now action) }
        ensures none { IsNone result → (action : Action) → IsDue now self.now action → ⊥ }
    {
        if self.is_fill_due() {
            return Some(Action::Fill);
        }
        if self.is_submit_due(now) {
            return Some(Action::Submit);
        }
        if self.scans.is_asked_again(now) {
            return Some(Action::Again);
        }
        if self.is_close_due(now) {
            return Some(Action::Close);
        }
        match self.due_view(now) {
            Some(view) => Some(Action::Open(view)),
            None => None,
        }
    }

    /// The stage gets the inputs that the node inherits, if it does: what was written before is overwritten. Nothing
    /// while the port is open, behind which clients write: by then it's closed with each of its sessions, so none of
    /// their writes comes later. It fails only where the stage has no room for a write, and then the inputs are still
    /// to be inherited.
    pub fn fill<S: Staging>(&mut self, stage: &mut S) -> Result<(), StageError>
        ensures filled { OnOk result (Fills self.old.port.is_open self.old.inherited (S.told stage.old)
            (S.told stage.new) self.new.inherited) }
        ensures same { (self.new.scans ≡ self.old.scans) × (self.new.port ≡ self.old.port) }
    {
        if self.port.is_open {
            return Ok(());
        }
        let Some(inputs) = self.inherited else {
            return Ok(());
        };
        fill(stage, &inputs)?;
        self.inherited = None;
        Ok(())
    }

    /// Submits the scan of one sample of the staged inputs, where the node leads, a scan is due, none waits and the
    /// stage is to get nothing: its REQUEST. `None` where that isn't so, or numbers are used up; then, and where
    /// memory runs out, nothing changed.
    #[tactic(auto, using(crate::proofs::Quieting::none_may))]
    pub fn submit<S: Staging>(
        &mut self,
        alloc: Global,
        stage: &mut S,
        now: Duration,
    ) -> Result<Option<Sends>, AllocError>
        ensures some { IfOk result (λ o. IfSome o (λ sends. (is_some self.old.inherited ≡ false)
            × SubmitsScan now (S.told stage.old) sends.items (S.told stage.new) self.old.scans.driver
            self.new.scans.driver)) }
        ensures none { IfOk result
            (λ o. IfNone o ((self.new.scans ≡ self.old.scans) × (S.told stage.new ≡ S.told stage.old))) }
        ensures err { OnErr result ((self.new.scans ≡ self.old.scans) × (S.told stage.new ≡ S.told stage.old)) }
        ensures same { (self.new.inherited ≡ self.old.inherited) × (self.new.port ≡ self.old.port) }
    {
        if self.inherited.is_some() {
            return Ok(None);
        }
        self.scans.submit(alloc, stage, now)
    }

    /// The REQUEST that waits, to every replica: it counts as sent now. `None` where memory is wanting: then it's put
    /// off.
    pub fn again(&mut self, alloc: Global, now: Duration) -> Option<Sends>
        ensures sends { IfSome result (λ sends. SendsAt self.old.scans.driver.driver Retries sends.items) }
        ensures same { (self.new.scans.driver ≡ self.old.scans.driver) × (self.new.inherited ≡ self.old.inherited)
            × (self.new.port ≡ self.old.port) }
    {
        self.scans.again(alloc, now)
    }

    /// Takes a message of the group.
    #[tactic(auto, using(crate::proofs::Quieting::still_may))]
    pub fn reply(&mut self, message: &Message) -> Answered
        ensures answered { (log : List (Entry Asked)) → result ≡ scanning.answered_by
            (release_by self.old.scans.driver.driver.state (body_with log message.now.body))
            (is_some (answer_by self.old.scans.driver.driver.state (body_with log message.now.body)))
            (is_some self.old.scans.driver.shown) }
        ensures shown { (log : List (Entry Asked)) → TakesReply
            (release_by self.old.scans.driver.driver.state (body_with log message.now.body))
            (is_some (answer_by self.old.scans.driver.driver.state (body_with log message.now.body)))
            self.old.scans.driver self.new.scans.driver }
        ensures same { (self.new.inherited ≡ self.old.inherited) × (self.new.port ≡ self.old.port) }
    {
        self.scans.reply(message)
    }

    /// The port was opened.
    pub fn opened(&mut self)
        ensures { HasPort (record { is_open = true; tries = unrefused self.old.port.tries }) self.old self.new }
    {
        self.port = PortState {
            is_open: true,
            tries: self.port.tries.unrefused(),
        };
    }

    /// The port was refused in this view, now.
    pub fn refused(&mut self, view: u64, now: Duration)
        ensures { HasPort (record { is_open = false; tries = refused_in self.old.port.tries view now }) self.old
            self.new }
    {
        self.port = PortState {
            is_open: false,
            tries: self.port.tries.refused_in(view, now),
        };
    }

    /// The port was closed, with each of its sessions.
    pub fn closed(&mut self)
        ensures { HasPort (record { is_open = false; tries = self.old.port.tries }) self.old self.new }
    {
        self.port.is_open = false;
    }

    /// The view that it gives up, if it does: its port was refused too often there.
    pub fn given_up(&self) -> Option<u64>
        ensures { result ≡ given_up self.now.port.tries }
    {
        self.port.tries.given_up()
    }
}
