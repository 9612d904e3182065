//! Connections between machines: segments, and the ends that they come to.

use crate::lanes::Lanes;
use net_hello::{Epoch, Hello};
use net_peers::{Course, Duty, Pulse};
use plc_epochs::Word;
use vr_model::Message;

/// A segment of a connection that has nothing in it.
#[derive(Clone, Copy, Debug, PartialEq, Eq)]
pub enum Signal {
    Syn,
    SynAck,
    Beat,
    Fin,
}

/// What goes from one machine to another.
#[derive(Drop)]
pub enum Wire {
    Signal(Signal),
    Hello(Hello),
    Data(Box<Message>),
    /// Apart from connections.
    Visit { epoch: Epoch, word: Word },
    /// Of an operator to a replica, apart from connections.
    Console(Box<Message>),
}

/// From where to where a segment goes, by which connection.
#[derive(Clone, Copy)]
pub struct Route {
    /// Connections are counted; 0 where it's of none.
    pub connection: u64,
    pub from: u8,
    pub to: u8,
}

/// What goes from one machine to another by a route.
#[derive(Drop)]
pub struct Segment {
    pub route: Route,
    pub wire: Wire,
}

impl Route {
    /// Apart from connections.
    pub fn apart(from: u8, to: u8) -> Route {
        Route {
            connection: 0,
            from,
            to,
        }
    }

    /// The way back.
    pub fn back(self) -> Route {
        Route {
            connection: self.connection,
            from: self.to,
            to: self.from,
        }
    }
}

/// How far an end is.
#[derive(Clone, Copy, Debug, PartialEq, Eq)]
pub(crate) enum Stage {
    Away,
    Dialling,
    Greeting,
    Open,
}

/// One end of the connection to another machine.
#[derive(Clone, Copy)]
pub struct End {
    pub(crate) course: Course,
    pub(crate) stage: Stage,
    pub(crate) connection: u64,
    /// Something came behind the hello.
    has_joined: bool,
    /// The most starts that the other one told.
    pub(crate) starts: u64,
}

impl End {
    /// There is no connection, and none was.
    pub fn new(pulse: Pulse) -> End {
        End {
            course: Course::new(pulse, 0),
            stage: Stage::Away,
            connection: 0,
            has_joined: false,
            starts: 0,
        }
    }

    /// Whether the other machine is near.
    pub(crate) fn is_near(&self, moment: u64) -> bool {
        self.stage == Stage::Open && self.has_joined && self.course.is_near(moment)
    }

    /// What is due at it is done, and gives what goes over its connection, if anything. One of the two machines dials.
    pub(crate) fn tend(&mut self, dials: bool, moment: u64, lanes: &mut Lanes) -> Option<Signal> {
        match self.course.duty(moment) {
            Duty::Dial if dials => {
                self.dials(lanes.connect(), moment);
                Some(Signal::Syn)
            }
            Duty::GiveUp => {
                self.failed(moment);
                None
            }
            Duty::End => {
                self.closed(moment);
                Some(Signal::Fin)
            }
            Duty::Beat => {
                self.course.sent(moment);
                Some(Signal::Beat)
            }
            _ => None,
        }
    }

    /// It dials, by this connection.
    fn dials(&mut self, connection: u64, moment: u64) {
        self.course.dialled(moment);
        self.stage = Stage::Dialling;
        self.connection = connection;
    }

    /// Who it dialled is there: whether it says hello now, which it does where this is the connection that it dialled.
    pub(crate) fn greets(&mut self, connection: u64) -> bool {
        let greets = self.connection == connection && self.stage == Stage::Dialling;
        if greets {
            self.stage = Stage::Greeting;
        }
        greets
    }

    /// Whether a hello of this connection is waited for, at the end that dialled.
    pub(crate) fn waits_for(&self, connection: u64) -> bool {
        self.connection == connection && self.stage == Stage::Greeting
    }

    /// Something came over a connection: whether it's this one, and open.
    pub(crate) fn hears(&mut self, connection: u64, moment: u64) -> bool {
        let is_in = self.connection == connection && self.stage == Stage::Open;
        if is_in {
            self.course.heard(moment);
            self.has_joined = true;
        }
        is_in
    }

    /// The other end of a connection was closed.
    pub(crate) fn hears_end(&mut self, connection: u64, moment: u64) {
        if self.connection == connection && self.stage != Stage::Away {
            self.closed(moment);
        }
    }

    /// A hello of this connection was accepted, which told so many starts.
    pub(crate) fn opened(&mut self, connection: u64, starts: u64, moment: u64) {
        self.connection = connection;
        self.stage = Stage::Open;
        self.has_joined = false;
        self.starts = starts;
        self.course.opened(moment);
    }

    /// A dial or a greeting came to nothing.
    pub(crate) fn failed(&mut self, moment: u64) {
        self.stage = Stage::Away;
        self.course.failed(moment);
    }

    /// Its connection is over.
    fn closed(&mut self, moment: u64) {
        self.stage = Stage::Away;
        self.has_joined = false;
        self.course.closed(moment);
    }
}
