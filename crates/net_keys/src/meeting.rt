//! Two ends that meet: each proves to the other that it has the key.

ghost use Rattle.std.specs.Prelude.{◌≡◌, [], Err, IfErr, IfOk, OnErr};
ghost use Rattle.net_keys.specs.Keys.{key_name, pair_key};
ghost use Rattle.net_keys.specs.Meeting.{HasAnswered, MeetsDialler, MeetsListener, RefusesListener};
ghost use Rattle.net_keys.specs.Meeting.{connection_key, judged_answer, judged_challenge};
ghost use Rattle.net_keys.specs.Sealing.{sum_of};
ghost use Rattle.net_keys.specs.declared.sealing.Side.TheVariants.{Dialler, Listener};
ghost use Rattle.net_keys.specs.declared.challenge.ChallengeFault.TheVariants.{Forged};

use crate::challenge::{Challenge, ChallengeFault};
use crate::hmac::Hmac;
use crate::key::Key;
use crate::keys::Keys;
use crate::sealing::{Opener, SUM, Sealer, Side, sum_of};
use crate::sum_key::SumKey;

/// Both ways over a connection whose other end has proved that it has the key.
#[derive(Drop)]
pub struct Ends {
    pub sealer: Sealer,
    pub opener: Opener,
}

/// This end has dialled another machine, and waits for its answer.
#[derive(Drop)]
pub struct Dialled {
    own: Challenge,
    pair: [u8; 32],
}

/// This end was dialled, and has answered; the other end has yet to prove that it has the key.
#[derive(Drop)]
pub struct Answered {
    own: Challenge,
    key: SumKey,
}

/// The key of a connection, which both challenges make.
fn connection_key(pair: &[u8; 32], dialler: &Challenge, listener: &Challenge) -> [u8; 32]
    ensures { result ≡ connection_key pair.now dialler.now listener.now }
{
    let mut hmac = Hmac::new(pair);
    dialler.go_into(&mut hmac);
    listener.go_into(&mut hmac);
    hmac.finalize()
}

/// Whether a challenge answers this end's own. Else the first reason to refuse it.
fn judge_answer(own: &Challenge, answer: &Challenge) -> Result<(), ChallengeFault>
    ensures { result ≡ judged_answer own.now answer.now }
{
    if answer.nonce == own.nonce {
        return Err(ChallengeFault::OwnChallenge);
    }
    if answer.from != own.to || answer.to != own.from {
        return Err(ChallengeFault::OtherMachine);
    }
    if answer.key != own.key {
        return Err(ChallengeFault::OtherKey);
    }
    Ok(())
}

impl Dialled {
    /// What this end says first.
    pub fn challenge(&self) -> Challenge
        ensures { result ≡ self.now.own }
    {
        self.own
    }

    /// Meets the machine that was dialled, by its challenge, and the sum of its first record, which has no body. Else
    /// the first reason to refuse it.
    pub fn meet(self, answer: &Challenge, sum: &[u8; SUM]) -> Result<Ends, ChallengeFault>
        ensures met { IfOk result (λ ends. MeetsListener self answer.now sum.now ends) }
        ensures refused { IfErr result (λ fault. RefusesListener self answer.now sum.now fault) }
    {
        match judge_answer(&self.own, answer) {
            Ok(()) => {}
            Err(fault) => return Err(fault),
        }
        let key = SumKey::new(connection_key(&self.pair, &self.own, answer));
        let mut opener = Opener {
            key: key.copy(),
            side: Side::Listener,
            next: 0,
        };
        if opener.open(&[], sum).is_err() {
            return Err(ChallengeFault::Forged);
        }
        let sealer = Sealer {
            key,
            side: Side::Dialler,
            next: 0,
        };
        Ok(Ends { sealer, opener })
    }
}

/// The key by which a challenge is answered by this machine, with this nonce. Else the first reason to refuse it.
fn judge_challenge(
    keys: &Keys,
    own: u8,
    challenge: &Challenge,
    nonce: &[u8; 32],
) -> Result<Key, ChallengeFault>
    ensures { result ≡ judged_challenge keys.now own challenge.now nonce.now }
{
    if challenge.nonce == *nonce {
        return Err(ChallengeFault::OwnChallenge);
    }
    if challenge.to != own {
        return Err(ChallengeFault::OtherMachine);
    }
    if challenge.from == own {
        return Err(ChallengeFault::OwnMachine);
    }
    match keys.named(&challenge.key) {
        Some(key) => Ok(key),
        None => Err(ChallengeFault::OtherKey),
    }
}

impl Keys {
    /// A machine dials another one by the key that is spoken, with a nonce that was drawn for this connection.
    pub fn dial(&self, from: u8, to: u8, nonce: [u8; 32]) -> Dialled
        ensures { result ≡ record {
          own = record { from = from; to = to; key = key_name self.now.speaks; nonce = nonce };
          pair = pair_key self.now.speaks from to;
        } }
    {
        Dialled {
            own: Challenge {
                from,
                to,
                key: self.speaks.name(),
                nonce,
            },
            pair: self.speaks.of_pair(from, to),
        }
    }

    /// A machine answers a challenge, with a nonce that was drawn for this connection. Else the first reason to refuse
    /// it, and nothing is to be answered.
    pub fn answer(
        &self,
        own: u8,
        challenge: &Challenge,
        nonce: [u8; 32],
    ) -> Result<Answered, ChallengeFault>
        ensures answered { IfOk result (λ answered. HasAnswered self.now own challenge.now nonce answered) }
        ensures refused { IfErr result (λ fault. judged_challenge self.now own challenge.now nonce ≡ Err fault) }
    {
        let key = match judge_challenge(self, own, challenge, &nonce) {
            Ok(key) => key,
            Err(fault) => return Err(fault),
        };
        let answer = Challenge {
            from: own,
            to: challenge.from,
            key: challenge.key,
            nonce,
        };
        let pair = key.of_pair(challenge.from, own);
        Ok(Answered {
            own: answer,
            key: SumKey::new(connection_key(&pair, challenge, &answer)),
        })
    }
}

impl Answered {
    /// What this end answers.
    pub fn challenge(&self) -> Challenge
        ensures { result ≡ self.now.own }
    {
        self.own
    }

    /// The sum of this end's first record, which has no body and goes with the answer: its proof that it has the key.
    pub fn proof(&self) -> [u8; SUM]
        ensures { result ≡ sum_of self.now.key Listener 0 [] }
    {
        sum_of(&self.key, Side::Listener, 0, &[])
    }

    /// Meets the machine that dialled, by the body and the sum of its first record.
    pub fn meet(self, body: &[u8], sum: &[u8; SUM]) -> Result<Ends, ChallengeFault>
        ensures met { IfOk result (λ ends. MeetsDialler self body.now sum.now ends) }
        ensures refused { OnErr result (result ≡ Err Forged) }
        ensures forged { OnErr result (sum.now ≡ sum_of self.key Dialler 0 body.now → ⊥) }
    {
        let Answered { key, .. } = self;
        let mut opener = Opener {
            key: key.copy(),
            side: Side::Dialler,
            next: 0,
        };
        if opener.open(body, sum).is_err() {
            return Err(ChallengeFault::Forged);
        }
        let sealer = Sealer {
            key,
            side: Side::Listener,
            next: 1,
        };
        Ok(Ends { sealer, opener })
    }
}
