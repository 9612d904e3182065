//! A client of a replicated controller: it submits one command at a time, and takes the first REPLY to it.
ghost use Rattle.std.specs.Prelude.{◌≡◌, ◌+◌, ◌^◌, ◌<◌, ◌↔◌, false, true, not, List, [], IfSome, IfNone, IfOk, IsNone};
ghost use Rattle.std.specs.Prelude.{None, IsTrue, is_some};
ghost use Rattle.il_model.specs.declared.command.Command.{Command as Asked};
ghost use Rattle.il_model.specs.declared.command.Answer.{Answer as Given};
ghost use Rattle.vr_model.specs.Logs.{Request as Entry};
ghost use Rattle.vr_model.specs.Messages.{Replica, Client, RequestMessage};
ghost use Rattle.vr_model.specs.StandsFor.{request_of, body_with, message_with};
ghost use Rattle.vr_model.specs.World.{is_waiting};
ghost use Rattle.vr_model.specs.Steps.{Retries, StartsAgain, Hears, MayClient};
ghost use Rattle.vr_client.specs.Client.{SendsAt, BecomesAt, SubmitsCommand, answer_by, cannot_submit, new_client};

use il_model::{Answer, Command};
use std::alloc::{AllocError, Global};
use std::marker::Model;
use vr_model::{Body, ClientNumber, Config, Message, Party, Request, Sends};

/// So many numbers belong to each start of a client.
const NUMBERS_OF_A_START: u64 = 1 << 32;

/// The answer to the request with this number.
#[derive(Clone, Copy)]
pub struct Answered {
    pub number: u64,
    pub answer: Answer,
}

/// A client of a group. It submits one command at a time, and waits for the first REPLY to it. Contracts see it as what
/// the replication rules say that this client knows.
#[derive(Drop)]
pub struct GroupClient {
    config: Config,
    client: ClientNumber,
    starts: u32,
    sequence: u32,
    view: u64,
    waiting: Option<Request>,
}

impl Model for GroupClient {
    ghost use Rattle.std.specs.Prelude.{option_map};
    ghost use Rattle.vr_model.specs.StandsFor.{request_of};
    ghost use Rattle.vr_client.specs.Client.{Client};

    ghost Value = { Client };

    ghost view = { λ d. record {
      f = d.config.f;
      number = d.client.number;
      state = record {
        starts = d.starts;
        sequence = d.sequence;
        view = d.view;
        waits = option_map request_of d.waiting;
      };
    } };
}

/// The client's REQUEST to a replica.
fn request_to(client: ClientNumber, replica: u8, request: Request) -> Message
    ensures { message_with [] result
        ≡ record { from = Client client.number; to = Replica replica; body = RequestMessage (request_of request) } }
{
    Message {
        from: Party::Client(client),
        to: Party::Replica(replica),
        body: Body::Request(request),
    }
}

impl GroupClient {
    /// A client that has submitted nothing. `starts` says how often it started before: the numbers of its requests are
    /// above all that were given then.
    pub fn new(config: &Config, client: ClientNumber, starts: u32) -> GroupClient
        ensures { result ≡ new_client config.now.f client.number starts }
    {
        GroupClient {
            config: *config,
            client,
            starts,
            sequence: 0,
            view: 0,
            waiting: None,
        }
    }

    /// The sequence number of its next request; none while a request waits, and where the numbers are used up.
    fn next_sequence(&self) -> Option<u32>
        ensures next { IfSome result (λ s.
            (s ≡ self.now.state.sequence + 1) × (s < 2 ^ 32) × (self.now.state.waits ≡ None)) }
        ensures none { IsNone result ↔ (cannot_submit self.now.state ≡ true) }
    {
        match self.waiting {
            Some(_) => None,
            None => self.sequence.checked_add(1),
        }
    }

    /// Whether it may submit a command now: no request waits, and its numbers aren't used up.
    pub fn can_submit(&self) -> bool
        ensures { result ≡ not (cannot_submit self.now.state) }
    {
        self.next_sequence().is_some()
    }

    /// Whether a request waits for its REPLY.
    pub fn is_waiting(&self) -> bool
        ensures { result ≡ is_some self.now.state.waits }
    {
        self.waiting.is_some()
    }

    /// Submits a command under the next number: the REQUEST is for the primary of the greatest view that the client has
    /// heard of, and waits. The command is handed in twice: one goes out, the other waits. `None` while a request
    /// waits, and where the numbers are used up.
    pub fn submit(&mut self, command: Command, same: Command) -> Option<Message>
        requires { same ≡ command }
        ensures some { IfSome result (λ message. SubmitsCommand self.old command message self.new) }
        ensures none { IsNone result ↔ (cannot_submit self.old.state ≡ true) }
        ensures same { IfNone result (self.new ≡ self.old) }
    {
        let sequence = self.next_sequence()?;
        let client = self.client;
        let number = u64::from(self.starts) * NUMBERS_OF_A_START + u64::from(sequence);
        let primary = self.config.primary(self.view);
        self.sequence = sequence;
        self.waiting = Some(Request {
            client,
            number,
            command: same,
        });
        let request = Request {
            client,
            number,
            command,
        };
        Some(request_to(client, primary, request))
    }

    /// The REQUEST that waits, to every replica; nothing where none waits.
    pub fn retry(&self, alloc: Global) -> Result<Sends, AllocError>
        ensures { IfOk result (λ sends. SendsAt self.now Retries sends.items) }
    {
        let mut sends = Vec::new(alloc);
        let Some(request) = &self.waiting else {
            return Ok(sends);
        };
        for replica in 0..self.config.group_size() {
            sends.push(request_to(self.client, replica, request.copy(alloc)?))?;
        }
        Ok(sends)
    }

    /// Starts again as a client: it waits for nothing, and its numbers are above all that it gave; it knows the view
    /// still. So a request that nobody wants any more is let go. `false` where its starts are used up, and then nothing
    /// changed.
    pub fn start_again(&mut self) -> bool
        ensures may { (answer : List Asked → Given) → IsTrue result
            ↔ MayClient self.old.f self.old.number answer self.old.state StartsAgain }
        ensures again { result ≡ true → BecomesAt self.old StartsAgain self.new }
        ensures same { result ≡ false → self.new ≡ self.old }
    {
        let Some(starts) = self.starts.checked_add(1) else {
            return false;
        };
        self.starts = starts;
        self.sequence = 0;
        self.waiting = None;
        true
    }

    fn is_waiting_for(&self, number: u64) -> bool
        ensures { result ≡ is_waiting self.now.state.waits number }
    {
        match &self.waiting {
            Some(request) => request.number == number,
            None => false,
        }
    }

    /// Takes a message to the client. The first REPLY with the number that waits ends the waiting, and gives its
    /// answer.
    pub fn on_reply(&mut self, message: &Message) -> Option<Answered>
        ensures heard { (log : List (Entry Asked))
            → BecomesAt self.old (Hears (message_with log message.now)) self.new }
        ensures answer { (log : List (Entry Asked))
            → result ≡ answer_by self.old.state (body_with log message.now.body) }
    {
        let Body::Reply {
            view,
            number,
            answer,
        } = &message.body
        else {
            return None;
        };
        let is_first = self.is_waiting_for(*number);
        self.view = self.view.max(*view);
        if !is_first {
            return None;
        }
        self.waiting = None;
        Some(Answered {
            number: *number,
            answer: *answer,
        })
    }
}
