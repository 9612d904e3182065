//! Whether other machines are where the group's file has them. Of two machines the higher number dials the lower one:
//! so an address that is wrong may be missed only when words of a cold start go there. Each is tried now and then.

ghost use Rattle.std.specs.Prelude.{◌≡◌};
ghost use Rattle.plc_member.specs.Probing.{is_to_try, is_told_of, judged};

use crate::keeper::is_among;
use mio::net::TcpStream as Wire;
use plc_epochs::Moment;
use std::net::{Net, SocketAddr, TcpListener, TcpStream};
use vr_model::MOST_REPLICAS;

/// In milliseconds: so often the address of a machine is tried.
const AGAIN: Moment = 60_000;

/// In milliseconds: for so long.
const LONGEST: Moment = 2_000;

/// What came of a try.
#[derive(Clone, Copy, Debug, PartialEq, Eq)]
pub(crate) enum Verdict {
    /// It goes on.
    Open,
    /// Somebody listens there.
    Found,
    /// Nobody does.
    Missed,
}

/// How the connection of a try is.
#[derive(Clone, Copy, PartialEq, Eq)]
pub(crate) enum Reach {
    Connected,
    Refused,
    UnderWay,
}

/// A try that goes on.
#[derive(Drop)]
struct Try {
    machine: u8,
    wire: Wire,
    since: Moment,
}

/// Tries the addresses of other machines, one after the other, without a wait.
#[derive(Drop)]
pub(crate) struct Prober {
    /// When that of each machine was tried last.
    tried: [Option<Moment>; MOST_REPLICAS],
    /// The machines of which it was told that they aren't there, by bits.
    told: u8,
    under_way: Option<Try>,
}

/// Whether the address of a machine is tried now, which was tried last at that time, if it was: only that of one that
/// there's a connection with, since nobody can tell of another one where it is.
fn is_to_try(is_connected: bool, last: Option<Moment>, now: Moment) -> bool
    ensures { result ≡ is_to_try is_connected last now }
{
    match last {
        Some(last) => is_connected && now.saturating_sub(last) >= AGAIN,
        None => is_connected,
    }
}

/// What comes of a try that began then.
fn judged(reach: Reach, since: Moment, now: Moment) -> Verdict
    ensures { result ≡ judged reach since now }
{
    match reach {
        Reach::Connected => Verdict::Found,
        Reach::Refused => Verdict::Missed,
        Reach::UnderWay if now.saturating_sub(since) >= LONGEST => Verdict::Missed,
        Reach::UnderWay => Verdict::Open,
    }
}

/// Whether it's told that a machine isn't at its address, by what came of a try: once until it's found there, and only
/// of one that there is a connection with still.
fn is_told_of(verdict: Verdict, is_connected: bool, was_told: bool) -> bool
    ensures { result ≡ is_told_of verdict is_connected was_told }
{
    verdict == Verdict::Missed && is_connected && !was_told
}

/// How a connection is.
fn reach_of(wire: &Wire) -> Reach {
    if !matches!(wire.take_error(), Ok(None)) {
        return Reach::Refused;
    }
    if wire.peer_addr().is_ok() {
        Reach::Connected
    } else {
        Reach::UnderWay
    }
}

impl Prober {
    /// No address was tried.
    pub(crate) fn new() -> Prober {
        Prober {
            tried: [None; MOST_REPLICAS],
            told: 0,
            under_way: None,
        }
    }

    /// Goes on with what is under way, or tries the next address, where one is due. There are connections with these
    /// machines, by bits. The machine that isn't at its address, where that's to be told.
    pub(crate) fn look<R: Net<Listener = TcpListener, Stream = TcpStream>>(
        &mut self,
        net: &R,
        addresses: &[SocketAddr],
        connected: u8,
        now: Moment,
    ) -> Option<u8> {
        match self.under_way.take() {
            Some(trial) => self.go_on(trial, connected, now),
            None => self.begin(net, addresses, connected, now),
        }
    }

    /// Goes on with a try.
    fn go_on(&mut self, trial: Try, connected: u8, now: Moment) -> Option<u8> {
        let came = judged(reach_of(&trial.wire), trial.since, now);
        if came == Verdict::Open {
            self.under_way = Some(trial);
            return None;
        }
        self.judge(trial.machine, came, connected)
    }

    /// Tries the address of the first machine of which that's due.
    fn begin<R: Net<Listener = TcpListener, Stream = TcpStream>>(
        &mut self,
        net: &R,
        addresses: &[SocketAddr],
        connected: u8,
        now: Moment,
    ) -> Option<u8> {
        let machine = self.next(connected, now)?;
        let address = addresses.get(usize::from(machine))?;
        match Wire::connect(net, *address) {
            Ok(wire) => {
                self.under_way = Some(Try {
                    machine,
                    wire,
                    since: now,
                });
                None
            }
            Err(_) => self.judge(machine, Verdict::Missed, connected),
        }
    }

    /// The first machine whose address is to be tried now, from now on tried now.
    fn next(&mut self, connected: u8, now: Moment) -> Option<u8> {
        for machine in 0..self.tried.len() {
            let is_connected = is_among(connected, machine as u8);
            if is_to_try(is_connected, self.tried[machine], now) {
                self.tried[machine] = Some(now);
                return Some(machine as u8);
            }
        }
        None
    }

    /// The machine, where it's told that it isn't at its address by what came of a try.
    fn judge(&mut self, machine: u8, came: Verdict, connected: u8) -> Option<u8> {
        let bit = if machine < 8 { 1u8 << machine } else { 0 };
        let is_told = is_told_of(came, connected & bit != 0, self.told & bit != 0);
        match came {
            Verdict::Found => self.told &= !bit,
            Verdict::Missed if is_told => self.told |= bit,
            _ => {}
        }
        if is_told { Some(machine) } else { None }
    }
}
