//! A connection whose other end has to prove that it has the key, before it says hello.

ghost use Rattle.std.specs.Prelude.{◌≡◌, ◌≤◌, ◌<◌, IfSome, length};
ghost use Rattle.net_peers.specs.Saying.{HeardIn, IsRecord};

use crate::greeting::VISIT;
use crate::guard::Guard;
use crate::proved::{Answering, Called, Calling, Word};
use mio::net::TcpStream as Wire;
use net_hello::Hello;
use net_keys::{CHALLENGE, Challenge, ChallengeFault, Ends, SUM};
use std::alloc::Global;
use std::io::{ErrorKind, Read, Write};
use std::mem;
use std::random::RandomSource;

/// So many bytes has an answer: a challenge, and a record with no body.
const ANSWER: usize = CHALLENGE + 2 + SUM;

/// And so many the longest first record: a visit.
const MOST: usize = 2 + VISIT + SUM;

/// What is to come next over a connection that is under way.
#[derive(Drop)]
enum Stage {
    /// What the end says that dialled.
    Challenge,
    /// What the machine answers that was dialled.
    Answer(Calling),
    /// The first record of the end that dialled: a hello, or a visit.
    First(Answering),
    /// The hello of the machine that was dialled.
    Second(Called),
    /// Nothing.
    Over,
}

/// How far a meeting has come.
#[derive(Drop)]
pub(crate) enum Met {
    /// More is to come.
    Waits,
    /// The other end has proved that it has the key, and says this.
    Says(Word),
    /// It isn't met; whoever says that it's the machine of this number.
    Unmet(Option<u8>, ChallengeFault),
    /// The connection ended or failed.
    Over,
}

/// A connection over which both ends can seal and open.
#[derive(Drop)]
pub(crate) struct Line {
    pub(crate) wire: Wire,
    /// Where there is a key.
    pub(crate) ends: Option<Ends>,
}

impl Line {
    /// Where there is no key.
    pub(crate) fn plain(wire: Wire) -> Line {
        Line { wire, ends: None }
    }

    /// Whose other end has proved that it has the key.
    pub(crate) fn sealed(wire: Wire, ends: Ends) -> Line {
        Line {
            wire,
            ends: Some(ends),
        }
    }
}

/// A connection whose other end has yet to prove that it has the key.
#[derive(Drop)]
pub(crate) struct Meeting {
    pub(crate) wire: Wire,
    guard: Guard,
    /// The machine at the other end, as far as it's known: the one that was dialled, or the one that dials.
    machine: Option<u8>,
    bytes: [u8; MOST],
    count: usize,
    stage: Stage,
    ghost fits: { count ≤ 171 },
}

/// A nonce that was drawn just now; none where the system has none.
pub(crate) fn nonce<R: RandomSource>(rt: &R) -> Option<[u8; 32]> {
    let mut nonce = [0u8; 32];
    rt.fill_bytes(&mut nonce).ok()?;
    Some(nonce)
}

/// Writes these bytes at once: a new connection takes so few. None where it doesn't.
fn put(wire: &mut Wire, bytes: &[u8]) -> Option<()> {
    match wire.write(bytes) {
        Ok(count) if count == bytes.len() => Some(()),
        _ => None,
    }
}

/// The bytes of a sealed record.
pub(crate) fn record(alloc: Global, body: &[u8], sum: &[u8; SUM]) -> Option<Vec<u8>> {
    let mut bytes = Vec::new(alloc);
    let length = u16::try_from(body.len()).ok()?;
    bytes.extend_from_slice(&length.to_be_bytes()).ok()?;
    bytes.extend_from_slice(body).ok()?;
    bytes.extend_from_slice(sum).ok()?;
    Some(bytes)
}

/// Seals a hello, and says it. None where it doesn't.
pub(crate) fn say(alloc: Global, line: &mut Line, hello: &Hello) -> Option<()> {
    let body = hello.spell(alloc).ok()?;
    match &mut line.ends {
        Some(ends) => {
            let sum = ends.sealer.seal(body.as_slice()).ok()?;
            put(
                &mut line.wire,
                record(alloc, body.as_slice(), &sum)?.as_slice(),
            )
        }
        None => put(&mut line.wire, body.as_slice()),
    }
}

/// The length of a record's body that these bytes begin with.
fn length_of(bytes: &[u8]) -> usize
    ensures { result < 65536 }
{
    match bytes {
        [high, low, ..] => usize::from(*high) * 256 + usize::from(*low),
        _ => 0,
    }
}

/// These bytes as a sum.
fn sum_in(bytes: &[u8]) -> [u8; SUM]
    requires { length bytes.now ≡ 16 }
    ensures { result ≡ bytes.now }
{
    match <[u8; SUM]>::try_from(bytes) {
        Ok(sum) => sum,
        Err(_) => unreachable!(),
    }
}

/// The body of the record that these bytes begin with, and its sum; none where it isn't whole.
#[tactic(auto, using(crate::proofs::Records::record_first, crate::proofs::Records::range_length))]
fn record_in(bytes: &[u8]) -> Option<(&[u8], &[u8])>
    ensures is { IfSome result (λ r. IsRecord bytes.now r.0.now r.1.now) }
    ensures sum { IfSome result (λ r. length r.1.now ≡ 16) }
{
    if bytes.len() < 2 {
        return None;
    }
    let length = usize::from(bytes[0]) * 256 + usize::from(bytes[1]);
    if bytes.len() < length + 2 + SUM {
        return None;
    }
    let behind = 2 + length;
    Some((&bytes[2..behind], &bytes[behind..behind + SUM]))
}

/// The challenge at the front of these bytes.
fn challenge_in(bytes: &[u8]) -> Result<Challenge, ChallengeFault> {
    match bytes.get(..CHALLENGE) {
        Some(front) => match <[u8; CHALLENGE]>::try_from(front) {
            Ok(bytes) => Challenge::read(&bytes),
            Err(_) => Err(ChallengeFault::NoChallenge),
        },
        None => Err(ChallengeFault::NoChallenge),
    }
}

/// What a machine that was dialled answers: its challenge, and the sum of a record with no body.
pub(crate) fn answer_in(bytes: &[u8]) -> Result<(Challenge, [u8; SUM]), ChallengeFault> {
    let answer = challenge_in(bytes)?;
    match record_in(bytes.get(CHALLENGE..).unwrap_or(&[])) {
        Some(([], sum)) => Ok((answer, sum_in(sum))),
        _ => Err(ChallengeFault::Forged),
    }
}

impl Meeting {
    /// A connection that came in.
    pub(crate) fn of_stranger(wire: Wire, guard: Guard) -> Meeting {
        Meeting {
            wire,
            guard,
            machine: None,
            bytes: [0; MOST],
            count: 0,
            stage: Stage::Challenge,
        }
    }

    /// A connection with a machine that was dialled, which is told this end's challenge.
    pub(crate) fn dialled<R: RandomSource>(
        rt: &R,
        alloc: Global,
        wire: Wire,
        guard: Guard,
        machine: u8,
    ) -> Option<Meeting> {
        let calling = Calling::new(guard, machine, nonce(rt)?);
        let mut wire = wire;
        put(&mut wire, calling.challenge().spell(alloc).ok()?.as_slice())?;
        Some(Meeting {
            wire,
            guard,
            machine: Some(machine),
            bytes: [0; MOST],
            count: 0,
            stage: Stage::Answer(calling),
        })
    }

    /// So many bytes are to come, as far as that's known.
    fn wanted(&self) -> usize
        ensures { result ≤ 171 }
    {
        match self.stage {
            Stage::Challenge => CHALLENGE,
            Stage::Answer(_) => ANSWER,
            Stage::First(_) | Stage::Second(_) => {
                if self.count < 2 {
                    return 2;
                }
                MOST.min(length_of(&self.bytes[..self.count]) + 2 + SUM)
            }
            Stage::Over => 0,
        }
    }

    /// Reads what is there of what is wanted, once. Whether all of it is there; none where the connection is over.
    fn fill(&mut self) -> Option<bool> {
        let wanted = self.wanted();
        if self.count < wanted {
            match self.wire.read(&mut self.bytes[self.count..wanted]) {
                Ok(0) => return None,
                Ok(count) => self.count += count,
                Err(error) => {
                    return match error.kind() {
                        ErrorKind::WouldBlock | ErrorKind::Interrupted => Some(false),
                        _ => None,
                    };
                }
            }
        }
        Some(self.count >= self.wanted())
    }

    /// Reads what is there, and does what is to be done then: answers a challenge, or says this hello.
    pub(crate) fn hear<R: RandomSource>(&mut self, rt: &R, alloc: Global, own: &Hello) -> Met {
        for _ in 0..3 {
            match self.fill() {
                None => return Met::Over,
                Some(false) => {}
                Some(true) => match self.step(rt, alloc, own) {
                    Met::Waits => {}
                    met => return met,
                },
            }
        }
        Met::Waits
    }

    /// All that was wanted is there.
    fn step<R: RandomSource>(&mut self, rt: &R, alloc: Global, own: &Hello) -> Met {
        let count = self.count;
        self.count = 0;
        let stage = mem::replace(&mut self.stage, Stage::Over);
        let bytes = self.bytes;
        let came = bytes.get(..count).unwrap_or(&[]);
        let met = match stage {
            Stage::Challenge => self.challenged(rt, alloc, came),
            Stage::Answer(calling) => self.answered(alloc, calling, came, own),
            Stage::First(answering) => first(answering, came),
            Stage::Second(called) => second(called, came),
            Stage::Over => Ok(Met::Over),
        };
        match met {
            Ok(met) => met,
            Err(fault) => Met::Unmet(self.machine, fault),
        }
    }

    /// A machine dialled, and said this: it's answered.
    fn challenged<R: RandomSource>(
        &mut self,
        rt: &R,
        alloc: Global,
        came: &[u8],
    ) -> Result<Met, ChallengeFault> {
        let challenge = challenge_in(came)?;
        self.machine = Some(challenge.from);
        let Some(nonce) = nonce(rt) else {
            return Ok(Met::Over);
        };
        let answering = Answering::new(self.guard, challenge, nonce)?;
        match self.answer(alloc, &answering) {
            Some(()) => {
                self.stage = Stage::First(answering);
                Ok(Met::Waits)
            }
            None => Ok(Met::Over),
        }
    }

    /// Says this end's challenge, and its first record. None where it doesn't.
    fn answer(&mut self, alloc: Global, answering: &Answering) -> Option<()> {
        let mut bytes = answering.challenge().spell(alloc).ok()?;
        let proof = record(alloc, &[], &answering.proof())?;
        bytes.extend_from_slice(proof.as_slice()).ok()?;
        put(&mut self.wire, bytes.as_slice())
    }

    /// The machine that was dialled answered this: it's told this end's hello.
    fn answered(
        &mut self,
        alloc: Global,
        calling: Calling,
        came: &[u8],
        own: &Hello,
    ) -> Result<Met, ChallengeFault> {
        let (answer, proof) = answer_in(came)?;
        let mut called = calling.meet(answer, proof)?;
        match self.tell(alloc, &mut called, own) {
            Some(()) => {
                self.stage = Stage::Second(called);
                Ok(Met::Waits)
            }
            None => Ok(Met::Over),
        }
    }

    /// Says this hello. None where it doesn't.
    fn tell(&mut self, alloc: Global, called: &mut Called, hello: &Hello) -> Option<()> {
        let body = hello.spell(alloc).ok()?;
        let sum = called.seal(body.as_slice())?;
        put(
            &mut self.wire,
            record(alloc, body.as_slice(), &sum)?.as_slice(),
        )
    }
}

/// The machine that dialled said this first.
fn first(answering: Answering, came: &[u8]) -> Result<Met, ChallengeFault>
    ensures { HeardIn result came.now }
{
    let Some((body, sum)) = record_in(came) else {
        return Err(ChallengeFault::Forged);
    };
    let sum = sum_in(sum);
    match answering.hear(body, &sum) {
        Ok(word) => Ok(Met::Says(word)),
        Err(fault) => Err(fault),
    }
}

/// The machine that was dialled said this behind its answer.
fn second(called: Called, came: &[u8]) -> Result<Met, ChallengeFault>
    ensures { HeardIn result came.now }
{
    let Some((body, sum)) = record_in(came) else {
        return Err(ChallengeFault::Forged);
    };
    let sum = sum_in(sum);
    match called.hear(body, &sum) {
        Ok(word) => Ok(Met::Says(word)),
        Err(fault) => Err(fault),
    }
}
