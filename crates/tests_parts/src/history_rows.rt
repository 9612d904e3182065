//! A link and a timer that have histories: what contracts say of those isn't said of none.

use std::alloc::Global;
use std::process::Abort;
use std::test::Fail;
use vr_model::{Body, Message, Party, Standing};
use vr_ports::{Input, Link, Tick, Timer};

/// A COMMIT of this number.
fn commit(number: u64) -> Message {
    Message {
        from: Party::Replica(1),
        to: Party::Replica(0),
        body: Body::Commit {
            view: 0,
            commit_number: number,
        },
    }
}

/// Gives so many messages, and then nothing. It keeps what it gave, and what it was handed to send.
#[derive(Drop)]
struct KeepingLink<R: Abort + Drop> {
    rt: R,
    alloc: Global,
    left: u64,
    given: Vec<Input>,
    sent: Vec<Message>,
}

impl<R: Abort + Drop> Link for KeepingLink<R> {
    ghost use Rattle.std.specs.Prelude.{Some};

    ghost inputs = { λ l. Some l.given.items };

    ghost sent = { λ l. Some l.sent.items };

    fn recv(&mut self) -> Input {
        let (kept, input) = if self.left > 0 {
            let message = commit(self.left);
            let copy = message.copy(self.alloc).expect(&self.rt, "memory");
            (Input::Message(copy), Input::Message(message))
        } else {
            (Input::Nothing, Input::Nothing)
        };
        self.left = self.left.saturating_sub(1);
        self.given.push(kept).expect(&self.rt, "memory");
        input
    }

    fn send(&mut self, message: Message) {
        self.sent.push(message).expect(&self.rt, "memory");
    }
}

/// Times out at each poll but the first. It keeps what it said.
#[derive(Drop)]
struct KeepingTimer<R: Abort + Drop> {
    rt: R,
    said: Vec<Tick>,
}

impl<R: Abort + Drop> Timer for KeepingTimer<R> {
    ghost use Rattle.std.specs.Prelude.{Some};

    ghost ticks = { λ t. Some t.said.items };

    fn poll(&mut self) -> Tick {
        let tick = if self.said.is_empty() {
            Tick::None
        } else {
            Tick::Timeout
        };
        self.said.push(tick).expect(&self.rt, "memory");
        tick
    }

    fn heard(&mut self, _message: &Message) {}

    fn stepped(&mut self, _standing: Standing) {}
}

#[test]
fn links_and_timers_may_have_histories(rt: HostRuntime) -> Result<(), Fail> {
    let alloc = rt.alloc();
    let mut link = KeepingLink {
        rt,
        alloc,
        left: 1,
        given: Vec::new(alloc),
        sent: Vec::new(alloc),
    };
    drop((link.recv(), link.recv()));
    link.send(commit(7));
    assert_eq!(rt; (link.given.len(), link.sent.len()), (2, 1));
    let mut timer = KeepingTimer {
        rt,
        said: Vec::new(alloc),
    };
    let _ = (timer.poll(), timer.poll());
    assert_eq!(rt; timer.said.len(), 2);
    Ok(())
}
