//! A command that is asked of a group, as one of its clients.

ghost use Rattle.std.specs.Prelude.{◌≡◌, ◌⊎◌, IfOk, OnErr, List};
ghost use Rattle.std.specs.List.{AllByRecursion};
ghost use Rattle.vr_model.specs.declared.message.Message.{Message as Sent};
ghost use Rattle.vr_model.specs.Steps.{Retries};
ghost use Rattle.vr_ports.specs.Parties.{Grows};
ghost use Rattle.vr_client.specs.Client.{SendsAt};
ghost use Rattle.plc_console.specs.Asking.{way, joined, FindsClosed, GivesUp, Hears, IsAnswered, IsUnanswered};

use crate::patience::Patience;
use crate::session::Unanswered;
use il_model::{Answer, Command};
use plc_host::Host;
use std::alloc::Global;
use std::sync::Wait;
use std::time::{Clock, Instant};
use vr_client::{GroupClient, RetryTimer};
use vr_ports::{Input, Link, send_all};

/// Submits a command under the client's next number, and receives until it is answered: by the first REPLY with that
/// number, whatever else comes meanwhile. After each period without it, for a change to a long image one of a second at
/// the least, the same request is sent again, to all. It is unanswered where the link is closed meanwhile, or it's
/// given up, since there has been no majority for as long as that is waited for: then the client has started again, and
/// may submit; what was given up may still be done. Or nothing was submitted, since the client has a request that
/// waits, its numbers are used up, or memory runs out.
pub fn ask<R: Wait + Clock + Copy, L: Link>(
    host: &Host<R>,
    patience: &mut Patience,
    client: &mut GroupClient,
    link: &mut L,
    command: &Command,
) -> Result<Answer, Unanswered>
    ensures answered { IfOk result (λ answer. IsAnswered client.old command.now
        (way (L.inputs link.old) (L.sent link.old)) (way (L.inputs link.new) (L.sent link.new)) answer client.new) }
    ensures unanswered { OnErr result (IsUnanswered client.old command.now
        (way (L.inputs link.old) (L.sent link.old)) (way (L.inputs link.new) (L.sent link.new)) client.new) }
{
    let Host { rt, alloc } = *host;
    let Ok(one) = command.copy(alloc) else {
        return Err(Unanswered);
    };
    let Ok(same) = command.copy(alloc) else {
        return Err(Unanswered);
    };
    let Some(request) = client.submit(one, same) else {
        return Err(Unanswered);
    };
    link.send(request);
    let mut timer = RetryTimer::new(patience.period(command), Instant::now(&rt).ok());
    patience.begin();
    for _ in rt.forever() {
        if let Some(answer) = hear(client, link)? {
            return Ok(answer);
        }
        if patience.is_at_its_end(&rt) {
            return Err(give_up(patience, client));
        }
        ask_again(&rt, alloc, client, link, &mut timer);
    }
    unreachable!()
}

/// Lets go of the request that waits: the client starts again, if it may.
fn give_up(patience: &mut Patience, client: &mut GroupClient) -> Unanswered
    ensures { GivesUp client.old client.new }
{
    if patience.may_start_again() {
        let _ = client.start_again();
    }
    Unanswered
}

/// Receives once: the answer to the command that waits, if that is what came.
fn hear<L: Link>(client: &mut GroupClient, link: &mut L) -> Result<Option<Answer>, Unanswered>
    ensures heard { IfOk result (λ answer. Hears client.old
        (way (L.inputs link.old) (L.sent link.old)) (way (L.inputs link.new) (L.sent link.new)) answer client.new) }
    ensures closed { OnErr result (FindsClosed (way (L.inputs link.old) (L.sent link.old))
        (way (L.inputs link.new) (L.sent link.new)) × (client.new ≡ client.old)) }
{
    match link.recv() {
        Input::Message(message) => match client.on_reply(&message) {
            Some(answered) => Ok(Some(answered.answer)),
            None => Ok(None),
        },
        Input::Nothing => Ok(None),
        Input::Closed => Err(Unanswered),
    }
}

/// Sends the request that waits to all where that is due and the machine's time can be read.
fn ask_again<R: Clock, L: Link>(
    rt: &R,
    alloc: Global,
    client: &GroupClient,
    link: &mut L,
    timer: &mut RetryTimer,
)
    ensures sent { (again : List (List Sent)) × AllByRecursion (SendsAt client.now Retries) again
        × Grows (L.sent link.old) (L.sent link.new) (joined again) }
    ensures same { L.inputs link.new ≡ L.inputs link.old }
{
    let Ok(now) = Instant::now(rt) else {
        return;
    };
    if !timer.is_due(now) {
        return;
    }
    send_again(alloc, client, link);
}

/// Sends the request that waits to all. Where memory runs out nothing is sent, until a later time.
fn send_again<L: Link>(alloc: Global, client: &GroupClient, link: &mut L)
    ensures sent { (L.sent link.new ≡ L.sent link.old)
        ⊎ ((sends : List Sent) × SendsAt client.now Retries sends × Grows (L.sent link.old) (L.sent link.new) sends) }
    ensures same { L.inputs link.new ≡ L.inputs link.old }
{
    if let Ok(sends) = client.retry(alloc) {
        send_all(link, sends);
    }
}
