//! The scan driver: the client of a replicated controller that submits its scans and takes what they release.
ghost use Rattle.std.specs.Prelude.{◌≡◌, ◌↔◌, false, true, List, [], IfOk, IfSome, IfNone, IsTrue, OnErr, IsNone};
ghost use Rattle.std.specs.Prelude.{is_some};
ghost use Rattle.il_model.specs.declared.command.Answer.{Answer as Given};
ghost use Rattle.il_model.specs.declared.command.Command.{Command as Asked};
ghost use Rattle.vr_model.specs.Logs.{Request as Entry};
ghost use Rattle.vr_model.specs.StandsFor.{body_with, message_with};
ghost use Rattle.vr_model.specs.Steps.{Retries, StartsAgain, Hears, MayClient};
ghost use Rattle.vr_client.specs.Client.{SendsAt, BecomesAt, cannot_submit, new_client};
ghost use Rattle.io_driver.specs.Driver.{SubmitsSample, first_driver, release_by};

use il_model::Command;
use io_image::{Release, Staging};
use std::alloc::{AllocError, Global};
use std::marker::Model;
use vr_client::GroupClient;
use vr_model::{ClientNumber, Config, Message, Sends};

/// The driver's number among the clients.
const DRIVER: ClientNumber = ClientNumber { number: 0 };

/// A client of a group, client 0 unless another is named. It submits one scan at a time, of a sample of the staged
/// inputs, and waits for the first REPLY to it. Contracts see it as what the replication rules say that this client
/// knows.
#[derive(Drop)]
pub struct ScanDriver {
    client: GroupClient,
}

impl Model for ScanDriver {
    ghost use Rattle.vr_client.specs.Client.{Client};

    ghost Value = { Client };

    ghost view = { λ d. d.client };
}

impl ScanDriver {
    /// A driver that has submitted nothing. `starts` says how often the group's driver started before: the numbers of
    /// its requests are above all that were given then.
    pub fn new(config: &Config, starts: u32) -> ScanDriver
        ensures { result ≡ first_driver config.now.f starts }
    {
        ScanDriver::of_client(config, DRIVER, starts)
    }

    /// A driver that is this client and has submitted nothing, where a group has several, one of which drives at a
    /// time. `starts` says how often that client started before.
    pub fn of_client(config: &Config, client: ClientNumber, starts: u32) -> ScanDriver
        ensures { result ≡ new_client config.now.f client.number starts }
    {
        ScanDriver {
            client: GroupClient::new(config, client, starts),
        }
    }

    /// Whether a scan waits for its REPLY.
    pub fn is_waiting(&self) -> bool
        ensures { result ≡ is_some self.now.state.waits }
    {
        self.client.is_waiting()
    }

    /// Takes one sample of the staged inputs and submits the scan of its cells under the next number: the REQUEST goes
    /// to the primary of the greatest view that the driver has heard of, and waits. `None` while a request waits, and
    /// where the numbers are used up; then, and where memory runs out, no sample is taken.
    pub fn sample_and_submit<S: Staging>(
        &mut self,
        alloc: Global,
        staging: &mut S,
        moment: u64,
    ) -> Result<Option<Sends>, AllocError>
        ensures some { IfOk result (λ o. IfSome o (λ sends.
            SubmitsSample self.old (S.told staging.old) moment sends.items self.new (S.told staging.new))) }
        ensures none { IfOk result (λ o. IsNone o ↔ (cannot_submit self.old.state ≡ true)) }
        ensures none_same { IfOk result (λ o. IfNone o
            ((self.new ≡ self.old) × (S.told staging.new ≡ S.told staging.old))) }
        ensures err { OnErr result ((self.new ≡ self.old) × (S.told staging.new ≡ S.told staging.old)) }
    {
        if !self.client.can_submit() {
            return Ok(None);
        }
        let mut sends = Vec::with_capacity(alloc, 1)?;
        let inputs = staging.sample().inputs;
        let scan = Command::Scan { inputs, moment };
        let same = Command::Scan { inputs, moment };
        let Some(request) = self.client.submit(scan, same) else {
            unreachable!()
        };
        let Ok(()) = sends.push(request) else {
            unreachable!()
        };
        Ok(Some(sends))
    }

    /// The REQUEST that waits, to every replica; nothing where none waits.
    pub fn retry(&self, alloc: Global) -> Result<Sends, AllocError>
        ensures { IfOk result (λ sends. SendsAt self.now Retries sends.items) }
    {
        self.client.retry(alloc)
    }

    /// Starts again as a client: it waits for nothing, and its numbers are above all that it gave. So a scan whose inputs
    /// are old is never asked for again. `false` where its starts are used up, and then nothing changed.
    pub fn start_again(&mut self) -> bool
        ensures may { (answer : List Asked → Given) → IsTrue result
            ↔ MayClient self.old.f self.old.number answer self.old.state StartsAgain }
        ensures again { result ≡ true → BecomesAt self.old StartsAgain self.new }
        ensures same { result ≡ false → self.new ≡ self.old }
    {
        self.client.start_again()
    }

    /// Takes a message to its client. The first REPLY with the number that waits ends the waiting, and gives a release
    /// where its answer has an image.
    pub fn on_reply(&mut self, message: &Message) -> Option<Release>
        ensures heard { (log : List (Entry Asked))
            → BecomesAt self.old (Hears (message_with log message.now)) self.new }
        ensures release { (log : List (Entry Asked))
            → result ≡ release_by self.old.state (body_with log message.now.body) }
    {
        let answered = self.client.on_reply(message)?;
        let image = answered.answer.image()?;
        Some(Release {
            number: answered.number,
            image,
        })
    }
}
