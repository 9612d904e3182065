//! The link of a machine's own replica, which can be held: while it is, no answer to its RECOVERY reaches the replica.

ghost use Rattle.std.specs.Prelude.{◌≡◌, None};
ghost use Rattle.plc_member.specs.Holding.{let_through};

use net_peers::{PeerCutter, PeerLink};
use plc_host_core::{is_answer, recovering_in};
use std::alloc::AllocError;
use std::net::{Net, TcpListener, TcpStream};
use std::random::RandomSource;
use std::sync::atomic::{AtomicBool, AtomicU64, Ordering};
use std::sync::{Arc, Wait};
use std::time::Clock;
use vr_model::Message;
use vr_ports::{Input, Link, Relink, Unlinked};

/// Holds the link of a replica, from another thread than its own.
#[derive(Drop)]
pub(crate) struct Hold {
    is_held: AtomicBool,
    /// So often it was asked to be held.
    asked: AtomicU64,
    /// How often it had been when the replica's thread began its last receive.
    seen: AtomicU64,
    /// Whose RECOVERY came since that was asked last, by bits.
    recoveries: AtomicU64,
    /// So many receives the replica's thread has begun.
    receives: AtomicU64,
    /// Nothing is given nor sent any more.
    is_dead: AtomicBool,
}

/// That the link of a replica gives and sends nothing any more. Only its end gives this.
#[derive(Clone, Copy, Debug)]
pub(crate) struct DeadLink(());

/// What is given of a message that came. No answer that comes while the link is held reaches the replica: it's lost.
fn let_through(message: Message, is_held: bool) -> Input
    ensures { result ≡ let_through message is_held }
{
    if is_held && is_answer(&message) {
        Input::Nothing
    } else {
        Input::Message(message)
    }
}

impl Hold {
    /// Of a link that isn't held.
    pub(crate) fn new() -> Hold {
        Hold {
            is_held: AtomicBool::new(false),
            asked: AtomicU64::new(0),
            seen: AtomicU64::new(0),
            recoveries: AtomicU64::new(0),
            receives: AtomicU64::new(0),
            is_dead: AtomicBool::new(false),
        }
    }

    /// Holds the link from now on. An answer that it gave before may still be under way in a step of the replica, as
    /// long as `is_taken_up` is false.
    pub(crate) fn hold(&self) {
        self.is_held.store(true, Ordering::SeqCst);
        let _ = self.asked.fetch_add(1, Ordering::SeqCst);
    }

    /// Whether the replica has begun a receive since the link was held last: so each step that an answer was given to
    /// has come to its end, and none is given until the link is let go.
    pub(crate) fn is_taken_up(&self) -> bool {
        self.seen.load(Ordering::SeqCst) == self.asked.load(Ordering::SeqCst)
    }

    /// Lets the link go.
    pub(crate) fn let_go(&self) {
        self.is_held.store(false, Ordering::SeqCst);
    }

    /// From now on the link gives and sends nothing: what its machine has to keep couldn't be written.
    pub(crate) fn end(&self) -> DeadLink {
        self.is_dead.store(true, Ordering::SeqCst);
        DeadLink(())
    }

    /// Whether that is so.
    pub(crate) fn is_dead(&self) -> bool {
        self.is_dead.load(Ordering::SeqCst)
    }

    /// Whose RECOVERY came since this was asked last: bit k stands for replica k.
    pub(crate) fn recoveries(&self) -> u64 {
        self.recoveries.swap(0, Ordering::SeqCst)
    }

    /// So many receives the replica's thread has begun.
    pub(crate) fn receives(&self) -> u64 {
        self.receives.load(Ordering::SeqCst)
    }

    /// The replica begins a receive.
    fn take_up(&self) {
        let _ = self.receives.fetch_add(1, Ordering::SeqCst);
        self.seen
            .store(self.asked.load(Ordering::SeqCst), Ordering::SeqCst);
    }

    /// Notes whose RECOVERY this is, if it's one.
    fn note(&self, message: &Message) {
        if let Some(number) = recovering_in(message)
            && number < 64
        {
            let _ = self.recoveries.fetch_or(1u64 << number, Ordering::SeqCst);
        }
    }
}

/// The link of a machine's own replica. It gives what its own link gives, but for answers while it's held.
#[derive(Drop)]
pub(crate) struct HeldLink<R: Wait + Drop> {
    pub(crate) link: PeerLink<R>,
    pub(crate) hold: Arc<Hold>,
}

impl<R> Link for HeldLink<R>
where
    R: Wait + Clock + RandomSource + Net<Listener = TcpListener, Stream = TcpStream> + Copy + Drop,
{
    ghost inputs = { λ _. None };

    ghost sent = { λ _. None };

    fn recv(&mut self) -> Input {
        if self.hold.is_dead() {
            return Input::Closed;
        }
        // Each step that came of the receive before has come to its end.
        self.hold.take_up();
        match self.link.recv() {
            Input::Message(message) => {
                self.hold.note(&message);
                // Looked at behind `take_up`: whoever held the link before that is heeded.
                let_through(message, self.hold.is_held.load(Ordering::SeqCst))
            }
            input => input,
        }
    }

    fn send(&mut self, message: Message) {
        if !self.hold.is_dead() {
            self.link.send(message);
        }
    }

    fn frameless(&self) -> u64 {
        self.link.frameless()
    }
}

impl<R> Relink for HeldLink<R>
where
    R: Wait
        + Clock
        + RandomSource
        + Net<Listener = TcpListener, Stream = TcpStream>
        + Copy
        + Send
        + Drop
        + 'static,
{
    type Cutter = PeerCutter<R>;

    fn cutter(&self) -> Result<PeerCutter<R>, AllocError> {
        self.link.cutter()
    }

    fn renew(&mut self) -> Result<(), Unlinked> {
        self.link.renew()
    }
}
