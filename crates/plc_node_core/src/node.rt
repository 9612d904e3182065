//! A node of a group, from its first look to its end.

ghost use Rattle.std.specs.Prelude.{◌≡◌, IfNone, IfSome, IsNone, List, None, Some, false, is_some, true};
ghost use Rattle.il_model.specs.declared.command.Command.{Command as Asked};
ghost use Rattle.io_driver.specs.Driver.{release_by};
ghost use Rattle.plc_machine.specs.Driving.{SubmitsScan, TakesReply};
ghost use Rattle.plc_node_core.specs.Ending.{cut_at, failure_of, first_of};
ghost use Rattle.plc_node_core.specs.Going.{IsNodeDue, LooksUnless, NodeLooks};
ghost use Rattle.plc_node_core.specs.Scanning as scanning;
ghost use Rattle.plc_node_core.specs.Trying.{refused_in, unrefused};
ghost use Rattle.plc_node_core.specs.Turns.{Fills, HasPort, IsSameRole};
ghost use Rattle.plc_node_core.specs.declared.scan_client.Answered.TheVariants as answers;
ghost use Rattle.vr_client.specs.Client.{SendsAt, answer_by};
ghost use Rattle.vr_model.specs.Logs.{Request as Entry};
ghost use Rattle.vr_model.specs.StandsFor.{body_with};
ghost use Rattle.vr_model.specs.Steps.{Retries};

use crate::ending::{End, Ending, Failure, LastAction, failure_of};
use crate::role::{Action, Role};
use crate::scan_client::Answered;
use io_image::Staging;
use plc_machine::{SeenScan, led_view};
use std::alloc::Global;
use std::time::Duration;
use vr_model::{Message, Sends, Standing};

/// What a node's replica shows of itself, by one look.
#[derive(Clone, Copy)]
pub struct ShownReplica {
    pub standing: Standing,
    /// Its store has failed, or what its machine has to keep couldn't be kept.
    pub has_failed: bool,
    /// It's served no longer: its thread is at its end.
    pub is_over: bool,
    /// The last scan of its log, if it has one.
    pub seen: Option<SeenScan>,
}

/// What a node is to do.
#[derive(Clone, Copy, Debug, PartialEq, Eq)]
pub enum NodeAction {
    Does(Action),
    Ends(LastAction),
}

/// A node of a group. Times are told to it, since a beginning of its own.
#[derive(Drop)]
pub struct Node {
    pub(crate) role: Role,
    /// How it has ended, if it has.
    pub(crate) end: Option<End>,
    /// Its replica is served no longer.
    pub(crate) is_over: bool,
}

impl Node {
    /// Of this role, which it has until it ends.
    pub fn new(role: Role) -> Node
        ensures { (result.role ≡ role) × (result.end ≡ None) × (result.is_over ≡ false) }
    {
        Node {
            role,
            end: None,
            is_over: false,
        }
    }

    /// What it is in its group.
    pub fn role(&self) -> &Role
        ensures { result.now ≡ self.now.role }
    {
        &self.role
    }

    /// Whether it has ended.
    pub fn has_ended(&self) -> bool
        ensures { result ≡ is_some self.now.end }
    {
        self.end.is_some()
    }

    /// It ends so, now, unless it has ended.
    pub fn end_by(&mut self, ending: Ending, now: Duration)
        ensures ended { self.new.end ≡ Some (first_of self.old.end ending now) }
        ensures same { (self.new.role ≡ self.old.role) × (self.new.is_over ≡ self.old.is_over) }
    {
        match self.end {
            Some(_) => {}
            None => self.end = Some(End::new(ending, now)),
        }
    }

    /// Looks at its replica. Where that can't go on, it ends. Once it has ended it follows nothing any more.
    pub fn look(&mut self, shown: &ShownReplica, now: Duration)
        ensures { NodeLooks shown.now now self.old self.new }
    {
        self.is_over = shown.is_over;
        match self.end {
            Some(_) => {}
            None => self.look_on(shown, now),
        }
    }

    /// Looks at its replica, of a node that hasn't ended.
    fn look_on(&mut self, shown: &ShownReplica, now: Duration)
        requires { self.old.end ≡ None }
        ensures looked { LooksUnless (failure_of shown.now.has_failed shown.now.is_over) shown.now now self.old
            self.new }
        ensures same { self.new.is_over ≡ self.old.is_over }
    {
        match failure_of(shown.has_failed, shown.is_over) {
            Some(failure) => self.end_by(Ending::Failed(failure), now),
            None => self.follow(shown, now),
        }
    }

    /// Follows its replica, of a node that hasn't ended. It ends where its client's numbers are used up.
    fn follow(&mut self, shown: &ShownReplica, now: Duration)
        requires { self.old.end ≡ None }
        ensures looked { LooksUnless None shown.now now self.old self.new }
        ensures same { self.new.is_over ≡ self.old.is_over }
    {
        let leads = led_view(shown.standing, shown.has_failed);
        match self.role.look(leads, &shown.seen, now) {
            Ok(()) => {}
            Err(_) => self.end_by(Ending::Failed(Failure::NumbersUsedUp), now),
        }
    }

    /// What it's to do now, if anything.
    #[tactic(auto, using(crate::proofs::Rows::none_going, crate::proofs::Rows::none_behind))]
    pub fn next_action(&self, now: Duration) -> Option<NodeAction>
        ensures some { IfSome result (λ action. IsNodeDue now self.now action) }
        ensures none { IsNone result → (action : NodeAction) → IsNodeDue now self.now action → ⊥ }
    {
        match self.end {
            Some(end) => match end.next_action(self.role.is_open(), self.is_over, now) {
                Some(action) => Some(NodeAction::Ends(action)),
                None => None,
            },
            None => match self.role.next_action(now) {
                Some(action) => Some(NodeAction::Does(action)),
                None => None,
            },
        }
    }

    /// The stage gets the inputs that the node inherits, if it does and its port is closed. Where the stage has no
    /// room for them the node ends.
    pub fn fill<S: Staging>(&mut self, stage: &mut S, now: Duration)
        ensures filled { (self.new.end ≡ None) → Fills self.old.role.port.is_open self.old.role.inherited
            (S.told stage.old) (S.told stage.new) self.new.role.inherited }
        ensures ended { (is_some self.old.end ≡ true) → (self.new ≡ self.old) × (S.told stage.new ≡ S.told stage.old) }
        ensures same { (self.new.role.scans ≡ self.old.role.scans) × (self.new.role.port ≡ self.old.role.port) }
    {
        if self.end.is_some() {
            return;
        }
        if self.role.fill(stage).is_err() {
            self.end_by(Ending::Failed(Failure::Memory), now);
        }
    }

    /// Submits the scan of one sample of the staged inputs, where that is due: its REQUEST. Where memory is wanting,
    /// or its client's numbers are used up, the node ends. Then, and where no scan is due, no sample is taken.
    pub fn submit<S: Staging>(
        &mut self,
        alloc: Global,
        stage: &mut S,
        now: Duration,
    ) -> Option<Sends>
        ensures some { IfSome result (λ sends. (is_some self.old.end ≡ false)
            × (is_some self.old.role.inherited ≡ false)
            × SubmitsScan now (S.told stage.old) sends.items (S.told stage.new) self.old.role.scans.driver
            self.new.role.scans.driver) }
        ensures kept { IfSome result (λ sends. self.new.end ≡ self.old.end) }
        ensures none { IfNone result (IsSameRole self.old.role self.new.role × (S.told stage.new ≡ S.told stage.old)) }
        ensures same { (self.new.role.inherited ≡ self.old.role.inherited)
            × (self.new.role.port ≡ self.old.role.port) }
    {
        if self.end.is_some() {
            return None;
        }
        match self.role.submit(alloc, stage, now) {
            Ok(Some(sends)) => Some(sends),
            Ok(None) => {
                self.note_unsubmitted(now);
                None
            }
            Err(_) => {
                self.end_by(Ending::Failed(Failure::Memory), now);
                None
            }
        }
    }

    /// No scan was submitted: where one is due there's no number for it.
    fn note_unsubmitted(&mut self, now: Duration)
        ensures { self.new.role ≡ self.old.role }
    {
        if self.role.is_submit_due(now) {
            self.end_by(Ending::Failed(Failure::NumbersUsedUp), now);
        }
    }

    /// The REQUEST that waits, to every replica: it counts as sent now. `None` where memory is wanting, or the node
    /// has ended.
    pub fn again(&mut self, alloc: Global, now: Duration) -> Option<Sends>
        ensures sends { IfSome result (λ sends. (is_some self.old.end ≡ false)
            × SendsAt self.old.role.scans.driver.driver Retries sends.items) }
        ensures same { (self.new.end ≡ self.old.end) × (self.new.role.scans.driver ≡ self.old.role.scans.driver)
            × (self.new.role.inherited ≡ self.old.role.inherited) × (self.new.role.port ≡ self.old.role.port) }
    {
        if self.end.is_some() {
            return None;
        }
        self.role.again(alloc, now)
    }

    /// Takes a message of the group. Nothing once it has ended.
    pub fn reply(&mut self, message: &Message) -> Answered
        ensures answered { (is_some self.old.end ≡ false) → (log : List (Entry Asked)) → result ≡ scanning.answered_by
            (release_by self.old.role.scans.driver.driver.state (body_with log message.now.body))
            (is_some (answer_by self.old.role.scans.driver.driver.state (body_with log message.now.body)))
            (is_some self.old.role.scans.driver.shown) }
        ensures shown { (is_some self.old.end ≡ false) → (log : List (Entry Asked)) → TakesReply
            (release_by self.old.role.scans.driver.driver.state (body_with log message.now.body))
            (is_some (answer_by self.old.role.scans.driver.driver.state (body_with log message.now.body)))
            self.old.role.scans.driver self.new.role.scans.driver }
        ensures same { (self.new.end ≡ self.old.end) × (self.new.role.inherited ≡ self.old.role.inherited)
            × (self.new.role.port ≡ self.old.role.port) }
        ensures ended { (is_some self.old.end ≡ true) → (result ≡ answers.Nothing) × (self.new ≡ self.old) }
    {
        if self.end.is_some() {
            return Answered::Nothing;
        }
        self.role.reply(message)
    }

    /// Its port was opened.
    pub fn opened(&mut self)
        ensures opened { HasPort (record { is_open = true; tries = unrefused self.old.role.port.tries }) self.old.role
            self.new.role }
        ensures same { (self.new.end ≡ self.old.end) × (self.new.is_over ≡ self.old.is_over) }
    {
        self.role.opened();
    }

    /// Its port was refused in this view, now.
    pub fn refused(&mut self, view: u64, now: Duration)
        ensures refused { HasPort (record { is_open = false; tries = refused_in self.old.role.port.tries view now })
            self.old.role self.new.role }
        ensures same { (self.new.end ≡ self.old.end) × (self.new.is_over ≡ self.old.is_over) }
    {
        self.role.refused(view, now);
    }

    /// Its port was closed, with each of its sessions.
    pub fn closed(&mut self)
        ensures closed { HasPort (record { is_open = false; tries = self.old.role.port.tries }) self.old.role
            self.new.role }
        ensures same { (self.new.end ≡ self.old.end) × (self.new.is_over ≡ self.old.is_over) }
    {
        self.role.closed();
    }

    /// Its replica's link was cut, now.
    pub fn cut(&mut self, now: Duration)
        ensures cut { self.new.end ≡ cut_at self.old.end now }
        ensures same { (self.new.role ≡ self.old.role) × (self.new.is_over ≡ self.old.is_over) }
    {
        if let Some(end) = &mut self.end {
            end.cut = Some(now);
        }
    }
}
