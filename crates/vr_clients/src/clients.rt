//! What a replica knows of its clients (the client table of Viewstamped Replication Revisited, section 4).

ghost use Rattle.std.specs.Prelude.{◌≡◌, ◌<◌, ℕ, length, drop, IfOk, replicate, slice_set, slice_get, Some, Option};
ghost use Rattle.std.specs.Prelude.{true, false};
ghost use Rattle.vr_model.specs.declared.log.Executed as model;
ghost use Rattle.vr_model.specs.Groups.{client_count};
ghost use Rattle.vr_model.specs.Logs.{is_above};
ghost use Rattle.vr_model.specs.Choices.{is_same};
ghost use Rattle.vr_model.specs.StandsFor.{requests_of};
ghost use Rattle.vr_clients.specs.Clients.{no_client, client_at, noted, answered, only_executed, restored, KnowsMore};
ghost use Rattle.vr_clients.specs.Clients.{answers_of};
ghost use Rattle.vr_clients.specs.declared.clients.Turn.TheVariants.{Earlier, Again, Next};

use il_model::Answer;
use std::alloc::{AllocError, Global};
use std::marker::Model;
use vr_model::{CLIENTS, ClientNumber, Executed, Request};

/// What a replica knows of one client.
#[derive(Clone, Copy)]
pub struct Client {
    /// The greatest number of its requests in the log.
    pub last_number: Option<u64>,
    /// Of those that were executed, the one with the greatest number.
    pub executed: Option<Executed>,
}

/// How a request stands to the last one of its client in the log.
#[derive(Clone, Copy, PartialEq, Eq)]
pub enum Turn {
    /// Its number is below.
    Earlier,
    /// It's that one.
    Again,
    /// Its number is above, or there's none.
    Next,
}

impl Client {
    /// How a request of this number stands to the client's last one.
    pub fn turn(&self, number: u64) -> Turn
        ensures earlier { result ≡ Earlier → (is_above number self.now.last_number ≡ false)
            × (is_same number self.now.last_number ≡ false) }
        ensures again { result ≡ Again → self.now.last_number ≡ Some number }
        ensures next { result ≡ Next → is_above number self.now.last_number ≡ true }
    {
        match self.last_number {
            Some(last) if number < last => Turn::Earlier,
            Some(last) if number == last => Turn::Again,
            _ => Turn::Next,
        }
    }
}

/// What a replica knows of each client.
#[derive(Drop)]
pub struct ClientTable {
    clients: Vec<Client>,
}

impl Model for ClientTable {
    ghost use Rattle.std.specs.Prelude.{◌≡◌, List, length};
    ghost use Rattle.vr_model.specs.Groups.{client_count};
    ghost use Rattle.vr_clients.specs.declared.clients.Client.{Client};

    ghost Value = { List Client };

    ghost view = { λ t. t.clients.items };

    ghost invariant = { λ t. length t.clients.items ≡ client_count };
}

impl ClientTable {
    /// No client is known yet. It fails only where memory runs out.
    pub fn new(alloc: Global) -> Result<ClientTable, AllocError>
        ensures { IfOk result (λ t. t ≡ replicate client_count no_client) }
    {
        let unknown = Client {
            last_number: None,
            executed: None,
        };
        Ok(ClientTable {
            clients: vec![in alloc; unknown; usize::from(CLIENTS)]?,
        })
    }

    /// What it knows of a client.
    pub fn get(&self, client: ClientNumber) -> &Client
        ensures { result.now ≡ client_at self.now client.number }
    {
        &self.clients[usize::from(client.number)]
    }

    /// A request of this client with this number is in the log now.
    pub fn note(&mut self, client: ClientNumber, number: u64)
        ensures { self.new ≡ slice_set self.old client.number (noted (client_at self.old client.number) number) }
    {
        let place = usize::from(client.number);
        self.clients[place].last_number = Some(match self.clients[place].last_number {
            None => number,
            Some(last) => last.max(number),
        });
    }

    /// A request of this client with this number was executed, with this answer.
    pub fn execute(&mut self, client: ClientNumber, number: u64, answer: Answer)
        ensures { self.new ≡ slice_set self.old client.number
            (answered (client_at self.old client.number) number answer) }
    {
        let place = usize::from(client.number);
        let is_later = match &self.clients[place].executed {
            None => true,
            Some(executed) => executed.number < number,
        };
        if is_later {
            self.clients[place].executed = Some(Executed { number, answer });
        }
    }

    /// Of each client only what was executed stays known.
    pub fn forget_unexecuted(&mut self)
        ensures size { length self.new ≡ length self.old }
        ensures each { (c : ℕ) → c < length self.old → client_at self.new c ≡ only_executed (client_at self.old c) }
    {
        forget(&mut self.clients);
    }

    /// Of each client the last request that was executed, with its answer. It fails only where memory runs out.
    pub fn executed(&self, alloc: Global) -> Result<Vec<Option<Executed>>, AllocError>
        ensures { IfOk result (λ answers. answers.items ≡ answers_of self.now) }
    {
        let mut answers = Vec::with_capacity(alloc, self.clients.len())?;
        for place in 0..self.clients.len() {
            answers.push(self.clients[place].executed)?;
        }
        Ok(answers)
    }

    /// What is known now is what was executed of each client and answered so.
    pub fn restore(&mut self, answers: &[Option<Executed>])
        ensures size { length self.new ≡ length self.old }
        ensures each { (c : ℕ) (e : Option model.Executed) → c < length self.old → slice_get answers.now c ≡ Some e
            → client_at self.new c ≡ restored e }
    {
        restore(&mut self.clients, answers);
    }

    /// The requests of a log from this place on are in the log now.
    pub fn note_from(&mut self, log: &[Request], from: usize)
        ensures { KnowsMore self.old (requests_of (drop from log.now)) self.new }
    {
        for place in from..log.len() {
            let request = &log[place];
            self.note(request.client, request.number);
        }
    }
}

fn restore(clients: &mut [Client], answers: &[Option<Executed>])
    ensures { (c : ℕ) (e : Option model.Executed) → c < length clients.old → slice_get answers.now c ≡ Some e
        → client_at clients.new c ≡ restored e }
{
    for i in 0..clients.len() {
        if let Some(executed) = answers.get(i) {
            clients[i] = Client {
                last_number: match executed {
                    None => None,
                    Some(last) => Some(last.number),
                },
                executed: *executed,
            };
        }
    }
}

fn forget(clients: &mut [Client])
    ensures { (c : ℕ) → c < length clients.old → client_at clients.new c ≡ only_executed (client_at clients.old c) }
{
    for i in 0..clients.len() {
        let executed = clients[i].executed;
        clients[i].last_number = match executed {
            None => None,
            Some(executed) => Some(executed.number),
        };
    }
}
