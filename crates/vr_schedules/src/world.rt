//! The world of a schedule: the replicas with their stores, the clients, and what the run shows so far.

ghost use Rattle.std.specs.Prelude.{◌≡◌, ◌<◌, ◌≤◌, ◌++◌, length, map, take, drop, max, replicate, MatchResult, IfOk};
ghost use Rattle.std.specs.Prelude.{OnOk};
ghost use Rattle.il_model.specs.declared.command.Command as command;
ghost use Rattle.vr_model.specs.Replicas.{ReplicaState};
ghost use Rattle.vr_model.specs.Groups.{client_count};
ghost use Rattle.vr_schedules.specs.declared.fault.Reason.TheVariants.{OutOfRange};
ghost use Rattle.vr_model.specs.StandsFor.{requests_of};
ghost use Rattle.vr_schedules.specs.Clients.{fresh_client, request_to, requests_below};
ghost use Rattle.vr_model.specs.Membership.{Membership};
ghost use Rattle.vr_schedules.specs.Members.{keeps_new};
ghost use Rattle.vr_schedules.specs.Standing.{first_node};

use crate::client::Client;
use crate::event::WorldEvent;
use crate::fault::{EventFault, Reason};
use crate::member::Member;
use crate::store::{Kept, MemoryStore};
use crate::trace::{Release, Trace};
use il_model::{Answer, Command};
use std::alloc::{AllocError, Global};
use std::collections::BTreeSet;
use vr_model::{Body, CLIENTS, ClientNumber, Config, Event, Message, Party, Request, Sends};

/// A replica, with its store and the nonces that it has used.
#[derive(Drop)]
pub(crate) struct Node<M> {
    pub member: M,
    pub store: MemoryStore,
    pub used: BTreeSet<u64>,
}

#[derive(Drop)]
pub(crate) struct World<M> {
    pub config: Config,
    pub nodes: Vec<Node<M>>,
    pub clients: [Client; CLIENTS as usize],
    pub trace: Trace,
}

/// REQUEST of a client to a replica.
fn request_message(client: ClientNumber, replica: u8, request: Request) -> Message
    ensures { result ≡ request_to client replica request }
{
    Message {
        from: Party::Client(client),
        to: Party::Replica(replica),
        body: Body::Request(request),
    }
}

/// The number of a client.
fn client_number(client: u64) -> Result<ClientNumber, Reason>
    ensures { MatchResult result (λ c. c.number ≡ client) (λ e. (e ≡ OutOfRange) × (client_count ≤ client)) }
{
    if client < u64::from(CLIENTS) {
        Ok(ClientNumber {
            number: client as u8,
        })
    } else {
        Err(Reason::OutOfRange)
    }
}

/// REQUEST of a client to each replica, in rising number.
fn send_to_all(
    alloc: Global,
    sent: &mut Vec<Message>,
    client: ClientNumber,
    replicas: u8,
    request: &Request,
) -> Result<(), AllocError>
    ensures { OnOk result (sent.new.items ≡ sent.old.items ++ requests_below client replicas request.now) }
{
    for replica in 0..replicas {
        sent.push(request_message(client, replica, request.copy(alloc)?))?;
    }
    Ok(())
}

/// Behind the committed list comes what this replica's log has past it.
fn look_ahead<M: Member>(
    alloc: Global,
    order: &mut Vec<Request>,
    member: &M,
) -> Result<(), AllocError>
    ensures { OnOk result ((m : Membership) (r : ReplicaState command.Command) → M.StandsFor member.now m r
        → r.commit_number ≤ length order.old.items
        → requests_of order.new.items ≡ requests_of order.old.items ++ drop (length order.old.items) r.log) }
{
    let first = order.len() as u64;
    for place in first..u64::MAX {
        let Some(request) = member.entry(place) else {
            return Ok(());
        };
        order.push(request.copy(alloc)?)?;
    }
    Err(AllocError)
}

/// Of the committed list, and of what came behind it, there stays what was committed or this replica has executed.
fn settle<M: Member>(order: &mut Vec<Request>, committed: usize, member: &M)
    ensures { (m : Membership) (r : ReplicaState command.Command) → M.StandsFor member.now m r
        → order.new.items ≡ take (max committed r.commit_number) order.old.items }
{
    order.truncate(committed.max(member.commit() as usize));
}

impl<M: Member> Node<M> {
    ghost use Rattle.std.specs.Prelude.{◌≡◌, ℕ, [], true, false, not, MatchResult, IfOk, OnOk, Some, None};
    ghost use Rattle.std.specs.Prelude.{if◌then◌else◌};
    ghost use Rattle.std.specs.Ordering.{nat_cmp};
    ghost use Rattle.std.specs.BTreeSet.{contains};
    ghost use Rattle.il_model.specs.declared.command.Command as command;
    ghost use Rattle.vr_model.specs.Replicas.{ReplicaState, is_down, put};
    ghost use Rattle.vr_model.specs.World.{down, require, NonceUsed, StillUp};
    ghost use Rattle.vr_schedules.specs.Members.{Taken, IsTaken, Does, by_rules, KeepsExecuted, FitsTaken};
    ghost use Rattle.vr_schedules.specs.Standing.{first_node};
    ghost use Rattle.vr_schedules.specs.Events.{IsReason};

    /// The node of a member, with an empty store, and no nonce used.
    fn new(alloc: Global, member: M) -> Node<M>
        ensures { result ≡ first_node member }
    {
        Node {
            member,
            store: MemoryStore {
                view: 0,
                failing: None,
            },
            used: BTreeSet::new(alloc),
        }
    }

    /// The member takes an event up, over its store.
    fn step(&mut self, alloc: Global, event: Event) -> Result<Sends, AllocError>
        ensures used { self.new.used ≡ self.old.used }
        ensures does { (m : Membership) (r : ReplicaState command.Command) (t : Taken) → M.StandsFor self.old.member m r
            → IsTaken M.IsSavedAs m event t → KeepsExecuted m r t → FitsTaken M.IsSavedAs m r event t
            → MatchResult result
            (λ sends. Does M.IsSavedAs m (M.StandsFor self.new.member m) r self.old.store self.new.store
            (by_rules m self.old.store.view r t) false sends.items)
            (λ _. Does M.IsSavedAs m (M.StandsFor self.new.member m) r self.old.store self.new.store
            (by_rules m self.old.store.view r t) true []) }
    {
        self.member.step(alloc, event, &mut self.store)
    }

    /// The member crashes: it is down.
    fn crash(&mut self, alloc: Global)
        ensures used { self.new.used ≡ self.old.used }
        ensures store { self.new.store ≡ self.old.store }
        ensures down { (m : Membership) (r : ReplicaState command.Command) → M.StandsFor self.old.member m r
            → M.StandsFor self.new.member m (down r) }
    {
        self.member.crash(alloc);
    }

    /// The next save of the member fails.
    fn fail_next_save(&mut self, kept: Kept)
        ensures { self.new ≡ record self.old { store = record self.old.store { failing = Some kept } } }
    {
        self.store.failing = Some(kept);
    }

    /// The member uses a nonce, to start again.
    fn take_nonce(&mut self, nonce: u64) -> Result<(), EventFault>
        ensures step { (m : Membership) (r : ReplicaState command.Command) → M.StandsFor self.old.member m r
            → MatchResult result
            (λ _. require (not (contains nat_cmp self.old.used nonce)) NonceUsed
            (require (is_down r.status) StillUp None) ≡ None)
            (λ e. IsReason (require (not (contains nat_cmp self.old.used nonce)) NonceUsed
            (require (is_down r.status) StillUp None)) e) }
        ensures member { OnOk result (self.new.member ≡ self.old.member) }
        ensures store { OnOk result (self.new.store ≡ self.old.store) }
        ensures used { OnOk result
            ((x : ℕ) → contains nat_cmp self.new.used x ≡ put (contains nat_cmp self.old.used) nonce true x) }
    {
        if self.used.contains(&nonce) {
            return Err(EventFault::Refused(Reason::NonceUsed));
        }
        if !self.member.is_down() {
            return Err(EventFault::Refused(Reason::StillUp));
        }
        self.used.insert(nonce)?;
        Ok(())
    }
}

/// Each of these with an empty store, and no nonce used.
fn first_nodes<M: Member>(alloc: Global, members: Vec<M>) -> Result<Vec<Node<M>>, AllocError>
    ensures { IfOk result (λ nodes. nodes.items ≡ map first_node members.items) }
{
    members
        .into_iter()
        .map(|member| Node::new(alloc, member))
        .collect(alloc)
}

/// Sixteen clients that have submitted nothing.
fn first_clients() -> [Client; CLIENTS as usize]
    ensures { result ≡ replicate client_count fresh_client }
{
    [
        Client::FIRST,
        Client::FIRST,
        Client::FIRST,
        Client::FIRST,
        Client::FIRST,
        Client::FIRST,
        Client::FIRST,
        Client::FIRST,
        Client::FIRST,
        Client::FIRST,
        Client::FIRST,
        Client::FIRST,
        Client::FIRST,
        Client::FIRST,
        Client::FIRST,
        Client::FIRST,
    ]
}

impl<M: Member> World<M> {
    ghost use Rattle.std.specs.Prelude.{◌≡◌, ◌<◌, ◌≤◌, ◌+◌, ℕ, length, MatchResult};
    ghost use Rattle.il_model.specs.declared.command.Command as command;
    ghost use Rattle.il_model.specs.declared.command.Answer as answers;
    ghost use Rattle.vr_schedules.specs.Standing.{IsFirst, Went, WentAt, WentToClient, WentOn};
    ghost use Rattle.vr_schedules.specs.Events.{event_of};
    ghost use Rattle.vr_model.specs.World.{Submit, Retry, ClientRestart, Deliver, Timeout, Resend, Crash, Restart};
    ghost use Rattle.vr_model.specs.World.{StoreFail};

    /// The world before the first event.
    pub fn new(alloc: Global, config: Config, members: Vec<M>) -> Result<World<M>, AllocError>
        ensures { IfOk result (IsFirst config members.items) }
    {
        Ok(World {
            config,
            nodes: first_nodes(alloc, members)?,
            clients: first_clients(),
            trace: Trace {
                releases: Vec::new(alloc),
                order: Vec::new(alloc),
                lengths: Vec::new(alloc),
                sent: Vec::new(alloc),
                lost: Vec::new(alloc),
            },
        })
    }

    /// The number of a replica.
    fn replica_number(&self, replica: u64) -> Result<usize, Reason>
        ensures { MatchResult result (λ i. (i ≡ replica) × (replica < length self.now.nodes.items))
            (λ e. (e ≡ OutOfRange) × (length self.now.nodes.items ≤ replica)) }
    {
        if (replica as usize) < self.nodes.len() {
            Ok(replica as usize)
        } else {
            Err(Reason::OutOfRange)
        }
    }

    fn submit(&mut self, alloc: Global, client: u64, command: &Command) -> Result<(), EventFault>
        ensures { Went M.IsSavedAs M.StandsFor self.old self.new (Submit client command.now) result }
    {
        let number = client_number(client)?;
        let place = number.number as usize;
        let (next, request) = self.clients[place].submit(alloc, number, command)?;
        let primary = self.config.primary(next.view);
        self.trace
            .sent
            .push(request_message(number, primary, request))?;
        self.clients[place] = next;
        Ok(())
    }

    fn retry(&mut self, alloc: Global, client: u64) -> Result<(), EventFault>
        ensures { Went M.IsSavedAs M.StandsFor self.old self.new (Retry client) result }
    {
        let number = client_number(client)?;
        let place = number.number as usize;
        let Some(request) = self.clients[place].waiting(alloc)? else {
            return Err(EventFault::Refused(Reason::WaitsOrNot));
        };
        let replicas = self.config.group_size();
        send_to_all(alloc, &mut self.trace.sent, number, replicas, &request)?;
        Ok(())
    }

    fn restart_client(&mut self, client: u64) -> Result<(), EventFault>
        ensures { Went M.IsSavedAs M.StandsFor self.old self.new (ClientRestart client) result }
    {
        let number = client_number(client)?;
        let place = number.number as usize;
        let state = self.clients[place].restart()?;
        self.clients[place] = state;
        Ok(())
    }

    /// A reply comes to a client.
    fn reply(
        &mut self,
        client: ClientNumber,
        view: u64,
        number: u64,
        answer: Answer,
    ) -> Result<(), EventFault>
        ensures { WentToClient M.IsSavedAs M.StandsFor self.old self.new client.number view number answer result }
    {
        let state = &mut self.clients[client.number as usize];
        let waited = state.waits_for(number);
        state.hear(view, number);
        if !waited {
            return Ok(());
        }
        self.trace.releases.push(Release {
            event: self.trace.lengths.len(),
            client,
            number,
            answer,
        })?;
        Ok(())
    }

    /// A replica takes an event up.
    fn act(&mut self, alloc: Global, replica: usize, event: Event) -> Result<(), EventFault>
        requires { replica < length self.old.nodes.items }
        ensures { WentAt M.IsSavedAs M.StandsFor self.old self.new replica event result }
    {
        let committed = self.trace.order.len();
        look_ahead(alloc, &mut self.trace.order, &self.nodes[replica].member)?;
        match self.nodes[replica].step(alloc, event) {
            Ok(mut sends) => {
                self.trace.sent.append(&mut sends)?;
                settle(
                    &mut self.trace.order,
                    committed,
                    &self.nodes[replica].member,
                );
            }
            Err(_) => {
                self.trace.order.truncate(committed);
                self.trace.lost.push(self.trace.lengths.len())?;
            }
        }
        Ok(())
    }

    fn deliver(&mut self, alloc: Global, message: u64) -> Result<(), EventFault>
        ensures { Went M.IsSavedAs M.StandsFor self.old self.new (Deliver message) result }
    {
        let Some(sent) = self.trace.sent.get(message as usize) else {
            return Err(EventFault::Refused(Reason::NotYetSent));
        };
        match sent.to {
            Party::Replica(number) => {
                let replica = usize::from(number);
                if replica >= self.nodes.len() {
                    return Ok(());
                }
                let copy = sent.copy(alloc)?;
                self.act(alloc, replica, Event::Message(copy))
            }
            Party::Client(client) => match sent.body {
                Body::Reply {
                    view,
                    number,
                    answer,
                } => self.reply(client, view, number, answer),
                _ => Ok(()),
            },
        }
    }

    fn timeout(&mut self, alloc: Global, replica: u64) -> Result<(), EventFault>
        ensures { Went M.IsSavedAs M.StandsFor self.old self.new (Timeout replica) result }
    {
        let place = self.replica_number(replica)?;
        self.act(alloc, place, Event::Timeout)
    }

    fn resend(&mut self, alloc: Global, replica: u64) -> Result<(), EventFault>
        ensures { Went M.IsSavedAs M.StandsFor self.old self.new (Resend replica) result }
    {
        let place = self.replica_number(replica)?;
        self.act(alloc, place, Event::Resend)
    }

    fn crash(&mut self, alloc: Global, replica: u64) -> Result<(), EventFault>
        ensures { Went M.IsSavedAs M.StandsFor self.old self.new (Crash replica) result }
    {
        let place = self.replica_number(replica)?;
        self.nodes[place].crash(alloc);
        Ok(())
    }

    fn restart(&mut self, alloc: Global, replica: u64, nonce: u64) -> Result<(), EventFault>
        ensures { Went M.IsSavedAs M.StandsFor self.old self.new (Restart replica nonce) result }
    {
        let place = self.replica_number(replica)?;
        self.nodes[place].take_nonce(nonce)?;
        self.act(alloc, place, Event::Restart(nonce))
    }

    fn fail_next_save(&mut self, replica: u64, kept: Kept) -> Result<(), EventFault>
        ensures { Went M.IsSavedAs M.StandsFor self.old self.new (StoreFail replica (keeps_new kept)) result }
    {
        let place = self.replica_number(replica)?;
        self.nodes[place].fail_next_save(kept);
        Ok(())
    }

    fn take_place(&mut self, alloc: Global, event: &WorldEvent) -> Result<(), EventFault>
        ensures { Went M.IsSavedAs M.StandsFor self.old self.new (event_of event.now) result }
    {
        match event {
            WorldEvent::Submit { client, command } => self.submit(alloc, *client, command),
            WorldEvent::Retry { client } => self.retry(alloc, *client),
            WorldEvent::ClientRestart { client } => self.restart_client(*client),
            WorldEvent::Deliver { message } => self.deliver(alloc, *message),
            WorldEvent::Timeout { replica } => self.timeout(alloc, *replica),
            WorldEvent::Resend { replica } => self.resend(alloc, *replica),
            WorldEvent::Crash { replica } => self.crash(alloc, *replica),
            WorldEvent::Restart { replica, nonce } => self.restart(alloc, *replica, *nonce),
            WorldEvent::StoreFail { replica, kept } => self.fail_next_save(*replica, *kept),
        }
    }

    /// An event takes place, and the length of the committed list after it is noted.
    pub fn happen(&mut self, alloc: Global, event: &WorldEvent) -> Result<(), EventFault>
        ensures { WentOn M.IsSavedAs M.StandsFor self.old self.new (event_of event.now) result }
    {
        self.take_place(alloc, event)?;
        self.trace.lengths.push(self.trace.order.len())?;
        Ok(())
    }
}
