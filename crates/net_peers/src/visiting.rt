//! A visit at another machine: a connection over which one frame goes, and nothing comes but what proves that it's
//! there.

use crate::greeting::VISIT;
use crate::meeting::{answer_in, nonce, record};
use net_keys::{CHALLENGE, Keys, SUM};
use std::alloc::Global;
use std::io::{Read, Write};
use std::net::{Net, SocketAddr, TcpListener, TcpStream};
use std::random::RandomSource;
use std::time::Duration;

/// A visit that came.
#[derive(Clone, Copy)]
pub struct Visited {
    /// The machine that has proved that it leaves it, where there's a key.
    pub by: Option<u8>,
    pub bytes: [u8; VISIT],
}

/// Who visits whom: a machine another one, by keys, if their group has any.
#[derive(Clone, Copy)]
pub struct Visitor {
    pub keys: Option<Keys>,
    pub from: u8,
    pub to: u8,
}

impl Visitor {
    /// Visits the replica that listens at this address, and leaves a frame of `VISIT` bytes. It waits for the
    /// connection for so long at most, and for what it's answered, where there's a key. Whether the frame was handed
    /// over to the system; nobody tells whether it's read.
    pub fn visit<R>(
        &self,
        rt: &R,
        alloc: Global,
        address: SocketAddr,
        frame: &[u8],
        wait: Duration,
    ) -> bool
    where
        R: RandomSource + Net<Listener = TcpListener, Stream = TcpStream>,
    {
        let Ok(stream) = TcpStream::connect_timeout(rt, &address, wait) else {
            return false;
        };
        let mut stream = stream;
        match self.keys {
            None => stream.write_all(frame).is_ok(),
            Some(keys) => {
                if stream.set_read_timeout(Some(wait)).is_err() {
                    return false;
                }
                self.leave(rt, alloc, &keys, &mut stream, frame).is_some()
            }
        }
    }

    /// Leaves a frame at a machine that has proved that it has the key. None where it doesn't.
    fn leave<R: RandomSource>(
        &self,
        rt: &R,
        alloc: Global,
        keys: &Keys,
        stream: &mut TcpStream,
        frame: &[u8],
    ) -> Option<()> {
        let dialled = keys.dial(self.from, self.to, nonce(rt)?);
        let challenge = dialled.challenge().spell(alloc).ok()?;
        stream.write_all(challenge.as_slice()).ok()?;
        let mut answer = [0u8; CHALLENGE + 2 + SUM];
        stream.read_exact(&mut answer).ok()?;
        let (answer, proof) = answer_in(&answer).ok()?;
        let mut ends = dialled.meet(&answer, &proof).ok()?;
        let sum = ends.sealer.seal(frame).ok()?;
        stream
            .write_all(record(alloc, frame, &sum)?.as_slice())
            .ok()
    }
}
