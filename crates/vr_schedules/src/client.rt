//! Clients.

ghost use Rattle.std.specs.Prelude.{◌≡◌, ◌+◌, max, MatchResult, IfOk, None, Some, if◌then◌else◌};
ghost use Rattle.vr_model.specs.World.{next_request, has_submitted, is_waiting};
ghost use Rattle.vr_model.specs.StandsFor.{request_of};
ghost use Rattle.vr_schedules.specs.Clients.{client_of, submit_refusal, restart_refusal};
ghost use Rattle.vr_schedules.specs.Events.{reason_of, IsReason};

use crate::fault::{EventFault, Reason};
use il_model::Command;
use std::alloc::{AllocError, Global};
use vr_model::{ClientNumber, Request};

/// What a client knows. Its numbers are `starts * 2^32 + sequence`.
#[derive(Drop)]
pub(crate) struct Client {
    pub starts: u32,
    pub sequence: u32,
    /// The greatest view among the replies that came.
    pub view: u64,
    /// The request that it waits for.
    pub waits: Option<Request>,
}

impl Client {
    /// A client that has submitted nothing.
    pub const FIRST: Client = Client {
        starts: 0,
        sequence: 0,
        view: 0,
        waits: None,
    };

    /// The client submits a command under its next number: the client as it is then, and the request.
    pub fn submit(
        &self,
        alloc: Global,
        number: ClientNumber,
        command: &Command,
    ) -> Result<(Client, Request), EventFault>
        ensures step { MatchResult result (λ _. submit_refusal (client_of self.now) ≡ None)
            (IsReason (submit_refusal (client_of self.now))) }
        ensures client { MatchResult result
            (λ x. client_of x.0 ≡ has_submitted (client_of self.now)
            (next_request number.number (client_of self.now) command.now)) (λ _. Unit {0}) }
        ensures request { MatchResult result
            (λ x. request_of x.1 ≡ next_request number.number (client_of self.now) command.now) (λ _. Unit {0}) }
    {
        if self.waits.is_some() {
            return Err(EventFault::Refused(Reason::WaitsOrNot));
        }
        let Some(sequence) = self.sequence.checked_add(1) else {
            return Err(EventFault::Refused(Reason::NumbersUsedUp));
        };
        let request = Request {
            client: number,
            number: u64::from(self.starts) * (1 << 32) + u64::from(sequence),
            command: command.copy(alloc)?,
        };
        let client = Client {
            starts: self.starts,
            sequence,
            view: self.view,
            waits: Some(request.copy(alloc)?),
        };
        Ok((client, request))
    }

    /// The client starts again: it still knows the view.
    pub fn restart(&self) -> Result<Client, Reason>
        ensures step { MatchResult result (λ _. restart_refusal (client_of self.now) ≡ None)
            (λ e. restart_refusal (client_of self.now) ≡ Some (reason_of e)) }
        ensures client { MatchResult result
            (λ k. client_of k ≡ record
            (client_of self.now) { starts = self.now.starts + 1; sequence = 0; waits = None }) (λ _. Unit {0}) }
    {
        let Some(starts) = self.starts.checked_add(1) else {
            return Err(Reason::NumbersUsedUp);
        };
        Ok(Client {
            starts,
            sequence: 0,
            view: self.view,
            waits: None,
        })
    }

    /// An equal one of the request that it waits for. It fails only where memory runs out.
    pub fn waiting(&self, alloc: Global) -> Result<Option<Request>, AllocError>
        ensures { IfOk result (λ request. request ≡ self.now.waits) }
    {
        match &self.waits {
            Some(request) => Ok(Some(request.copy(alloc)?)),
            None => Ok(None),
        }
    }

    /// Whether it waits for the answer to this number.
    pub fn waits_for(&self, number: u64) -> bool
        ensures { result ≡ is_waiting (client_of self.now).waits number }
    {
        match &self.waits {
            Some(request) => request.number == number,
            None => false,
        }
    }

    /// A reply came to it.
    pub fn hear(&mut self, view: u64, number: u64)
        ensures { client_of self.new ≡ record
            (client_of self.old) {
              view = max self.old.view view;
              waits = if is_waiting (client_of self.old).waits number then None else (client_of self.old).waits;
            } }
    {
        if self.waits_for(number) {
            self.waits = None;
        }
        self.view = self.view.max(view);
    }
}
