//! What a machine proves by the key: that it says a hello, or leaves a visit.

ghost use Rattle.std.specs.Prelude.{◌≡◌};
ghost use Rattle.net_keys.specs.Meeting.{HasAnswered};
ghost use Rattle.net_peers.specs.Proved.{HasCalled, IsLeft, IsProved, dialled_by};

use crate::greeting::VISIT;
use crate::guard::Guard;
use net_hello::Hello;
use net_keys::{Answered, Challenge, ChallengeFault, Dialled, Ends, SUM};

/// A hello of a machine that has proved that it says it, and both ways over its connection behind that.
#[derive(Drop)]
pub(crate) struct Proved {
    pub(crate) guard: Guard,
    pub(crate) hello: Hello,
    /// The one that came behind the hello.
    pub(crate) sum: [u8; SUM],
    pub(crate) ends: Ends,
    ghost is_proved: { ∥ IsProved guard hello sum ends.opener ∥₁ },
}

/// What the machine of this number has proved that it leaves.
#[derive(Clone, Copy)]
pub(crate) struct Left {
    pub(crate) guard: Guard,
    pub(crate) by: u8,
    pub(crate) bytes: [u8; VISIT],
    /// The one that came behind them.
    pub(crate) sum: [u8; SUM],
    ghost is_left: { ∥ IsLeft guard by bytes sum ∥₁ },
}

/// What a machine says first, as it has proved.
#[derive(Drop)]
pub(crate) enum Word {
    Hello(Proved),
    Visit(Left),
    /// Neither.
    Other,
}

/// A machine that was dialled, and hasn't answered yet.
#[derive(Drop)]
pub(crate) struct Calling {
    guard: Guard,
    machine: u8,
    nonce: [u8; 32],
    dialled: Dialled,
    ghost is_dialled: { dialled ≡ dialled_by guard machine nonce },
}

impl Calling {
    /// The machine of this number is dialled, with a nonce that was drawn for this connection.
    pub(crate) fn new(guard: Guard, machine: u8, nonce: [u8; 32]) -> Calling {
        Calling {
            guard,
            machine,
            nonce,
            dialled: guard.keys.dial(guard.own, machine, nonce),
        }
    }

    /// What this end says first.
    pub(crate) fn challenge(&self) -> Challenge {
        self.dialled.challenge()
    }

    /// Meets the machine by its challenge, and the sum of its first record, which has no body.
    #[tactic(auto, using(crate::proofs::Believed::has_called))]
    pub(crate) fn meet(
        self,
        answer: Challenge,
        proof: [u8; SUM],
    ) -> Result<Called, ChallengeFault> {
        let Calling {
            guard,
            machine,
            nonce,
            dialled,
        } = self;
        match dialled.meet(&answer, &proof) {
            Ok(ends) => Ok(Called {
                guard,
                machine,
                nonce,
                answer,
                proof,
                ends,
            }),
            Err(fault) => Err(fault),
        }
    }
}

/// A machine that was dialled, and has proved that it has the key; it hasn't said hello yet.
#[derive(Drop)]
pub(crate) struct Called {
    pub(crate) guard: Guard,
    pub(crate) machine: u8,
    nonce: [u8; 32],
    answer: Challenge,
    proof: [u8; SUM],
    pub(crate) ends: Ends,
    ghost has_called: { ∥ HasCalled guard machine nonce answer proof ends.opener ∥₁ },
}

impl Called {
    /// The sum of the next record that this end says; none where no number is left.
    pub(crate) fn seal(&mut self, body: &[u8]) -> Option<[u8; SUM]> {
        self.ends.sealer.seal(body).ok()
    }
}

/// A machine that dialled, and was answered; it hasn't proved anything yet.
#[derive(Drop)]
pub(crate) struct Answering {
    pub(crate) guard: Guard,
    pub(crate) challenge: Challenge,
    nonce: [u8; 32],
    pub(crate) answered: Answered,
    ghost has_answered: { ∥ HasAnswered guard.keys guard.own challenge nonce answered ∥₁ },
}

impl Answering {
    /// A challenge is answered, with a nonce that was drawn for this connection. Else the first reason to refuse it.
    pub(crate) fn new(
        guard: Guard,
        challenge: Challenge,
        nonce: [u8; 32],
    ) -> Result<Answering, ChallengeFault> {
        match guard.keys.answer(guard.own, &challenge, nonce) {
            Ok(answered) => Ok(Answering {
                guard,
                challenge,
                nonce,
                answered,
            }),
            Err(fault) => Err(fault),
        }
    }

    /// What this end answers.
    pub(crate) fn challenge(&self) -> Challenge {
        self.answered.challenge()
    }

    /// The sum of this end's first record, which has no body.
    pub(crate) fn proof(&self) -> [u8; SUM] {
        self.answered.proof()
    }
}
