//! The service: a door for operators, several connections at a time, of which one has the desk.

ghost use Rattle.std.specs.Prelude.{None};

use crate::desk::Desk;
use crate::fetching::image_line;
use crate::mirror::Mirror;
use crate::room::{Parting, Room, Seat, Shown};
use crate::session::{SessionEnd, Submits, Unanswered, serve_console};
use crate::telling::{breaks_line, forces_line, program_line};
use ctl_debugger::prepare;
use il_loader::{Image, load};
use il_model::{Answer, Budget, Command, Snapshot};
use io_model::Counted;
use plc_host::{Failed, Host, ServiceRuntime};
use plc_json::Question;
use plc_listener::{Connection, Door, DoorRuntime, Listener, OpenListener, WhenFull};
use plc_sight::SnapshotBoard;
use plc_status::{Doorway, Notice, StatusReader};
use std::alloc::{AllocError, Global};
use std::io;
use std::io::Read;
use std::ops::Range;
use std::sync::atomic::AtomicBool;
use std::sync::{Arc, Mutex, Wait};
use std::time::{Clock, Duration};
use vr_ports::{Cutter, Link, Relink};

/// So many clients are served at once; one of them has the desk, and the others may ask how the controller is.
const SEATS: usize = 4;

/// A desk, and what is known beside it.
#[derive(Drop)]
struct Informed<R: Copy + Drop, L: Drop> {
    host: Host<R>,
    desk: Desk<R, L>,
    mirror: Mirror,
    shown: Arc<Shown>,
}

impl<R: Wait + Clock + Copy + Drop, L: Link + Drop> Submits for Informed<R, L> {
    ghost answered = { λ _. None };

    /// Where memory runs out for what is to be known of it, nothing was submitted.
    fn submit(&mut self, command: &Command) -> Result<Answer, Unanswered> {
        let Ok(ready) = prepare(self.host.alloc, command) else {
            return Err(Unanswered);
        };
        let answer = self.desk.submit(command)?;
        self.mirror.follow(ready, &answer);
        Ok(answer)
    }

    fn tell(&mut self, question: Question) -> Result<Vec<u8>, AllocError> {
        if let Some(line) = self.shown.answer(&self.host, &question)? {
            return Ok(line);
        }
        let alloc = self.host.alloc;
        let snapshot = self.mirror.save(alloc)?;
        let line = match question {
            Question::Breaks => breaks_line(alloc, &snapshot)?,
            Question::Program => program_line(alloc, &snapshot)?,
            Question::Image => image_line(alloc, snapshot.image.as_slice())?,
            _ => forces_line(alloc, &snapshot)?,
        };
        Ok(line.into_bytes())
    }
}

impl<R: Wait + Clock + Copy + Drop, L: Link + Drop> Informed<R, L> {
    /// Knows the controller as it is now, with the image of the program in force, where other consoles give commands,
    /// too. Whether it does: not where no snapshot is to be had of it.
    fn catch_up(&mut self, rt: &R, image: &mut Image) -> bool {
        let Some(others) = self.desk.others() else {
            return true;
        };
        let takes_part = self.shown.takes_part(rt);
        let Some(snapshot) = others.snapshot(rt, takes_part) else {
            return false;
        };
        match mirrored(self.host.alloc, others.budget, &snapshot) {
            Some((mirror, in_force)) => {
                self.mirror = mirror;
                *image = in_force;
                true
            }
            None => false,
        }
    }
}

/// The mirror that a snapshot gives, and the image of its program.
fn mirrored(alloc: Global, budget: Budget, snapshot: &Snapshot) -> Option<(Mirror, Image)> {
    let image = load(alloc, snapshot.image.as_slice()).ok()?;
    let same = image.copy(alloc).ok()?;
    Some((Mirror::restored(alloc, same, budget, snapshot)?, image))
}

/// What a session at the desk works with: the desk, and the image of the program in force, in which names are looked up.
/// A change of the program lasts beyond the session.
#[derive(Drop)]
pub(crate) struct Workplace<R: Copy + Drop, L: Drop> {
    informed: Informed<R, L>,
    image: Image,
}

impl<R: Wait + Clock + Copy + Drop, L: Link + Drop> Workplace<R, L> {
    /// Serves a client to the end, who has sent these bytes already.
    pub(crate) fn serve(
        &mut self,
        host: &Host<R>,
        connection: &Connection<'_, R>,
        sent: &[u8],
    ) -> Parting {
        let Workplace { informed, image } = self;
        if !informed.catch_up(&host.rt, image) {
            return Parting::Unknown;
        }
        informed.desk.note(Notice::ConsoleBegins);
        let end = serve_console(
            &host.rt,
            host.alloc,
            image,
            &mut Counted::new(sent.chain(connection)),
            &mut Counted::new(connection),
            informed,
        );
        if connection.has_given_way() {
            informed.desk.note(Notice::ConsoleTaken);
            return Parting::TakenOver;
        }
        informed.desk.note(match end {
            SessionEnd::Dismissed => Notice::ConsoleRefused,
            _ => Notice::ConsoleEnds,
        });
        informed.parting(end)
    }

    /// Notes this, of a client who isn't at the desk, or of the door.
    pub(crate) fn note(&mut self, notice: Notice) {
        self.informed.desk.note(notice);
    }
}

impl<R: Wait + Clock + Copy + Drop, L: Link + Drop> Informed<R, L> {
    /// What the client is told whose session ended so.
    fn parting(&self, end: SessionEnd) -> Parting {
        match end {
            SessionEnd::Dismissed => Parting::Dismissed,
            SessionEnd::Unanswered if self.desk.has_no_majority() => Parting::NoMajority,
            _ => Parting::Quiet,
        }
    }
}

/// How operators come in.
#[derive(Drop)]
pub struct Entrance {
    pub door: Door,
    /// A session ends whose client ends no line, or doesn't take its answers, for so long.
    pub idle: Duration,
    /// The word that a client tells first, as a line, if one is asked for.
    pub key: Option<Vec<u8>>,
}

/// A console that takes no connection yet.
#[derive(Drop)]
pub struct Console<R: ServiceRuntime, L: Relink + Drop> {
    listener: Listener<R, Seat<R, L>>,
    cutter: L::Cutter,
}

/// What is known beside a desk.
#[derive(Drop)]
struct Known {
    shown: Arc<Shown>,
    /// The same.
    again: Arc<Shown>,
    image: Image,
    mirror: Mirror,
}

impl Known {
    /// Of a controller of this image's program that took no command yet, and shows so; the replicas of which it's told.
    fn of(
        alloc: Global,
        image: &Image,
        status: StatusReader,
        replicas: Range<u8>,
        sight: Option<Arc<SnapshotBoard>>,
    ) -> Result<Known, AllocError> {
        let shown = Shown {
            status: Mutex::new(status),
            replicas,
            sight,
        };
        let shown = Arc::new(alloc, shown)?;
        let again = Arc::try_clone(&shown)?;
        let own = image.copy(alloc)?;
        let mirror = Mirror::new(alloc, image)?;
        Ok(Known {
            shown,
            again,
            image: own,
            mirror,
        })
    }
}

/// The room with this desk, which nobody has.
fn room<R: ServiceRuntime, L: Relink + Drop>(
    host: Host<R>,
    desk: Desk<R, L>,
    known: Known,
    key: Option<Vec<u8>>,
) -> Result<Arc<Room<R, L>>, AllocError> {
    let Known {
        shown,
        again,
        image,
        mirror,
    } = known;
    let informed = Informed {
        host,
        desk,
        mirror,
        shown: again,
    };
    let room = Room {
        workplace: Mutex::new(Some(Workplace { informed, image })),
        holder: Mutex::new(None),
        shown,
        key,
        has_refused: AtomicBool::new(false),
    };
    Ok(Arc::new(host.alloc, room)?)
}

/// Where operators come in by this door.
fn doorway_of(door: &Door) -> io::Result<Doorway> {
    if door.is_at_path() {
        return Ok(Doorway::ConsoleSocket);
    }
    Ok(Doorway::ConsolePort(door.port()?))
}

/// One of the room's seats, for those who come in there.
fn seat<R: ServiceRuntime, L: Relink + Drop>(
    host: Host<R>,
    room: &Arc<Room<R, L>>,
    image: &Image,
    doorway: Doorway,
) -> Result<Seat<R, L>, AllocError> {
    let image = image.copy(host.alloc)?;
    Ok(Seat {
        room: Arc::try_clone(room)?,
        image,
        host,
        doorway,
    })
}

/// The room's seats, for those who come in there.
fn seats<R: ServiceRuntime, L: Relink + Drop>(
    host: Host<R>,
    room: &Arc<Room<R, L>>,
    image: &Image,
    doorway: Doorway,
) -> Result<Vec<Seat<R, L>>, AllocError> {
    let mut seats = Vec::with_capacity(host.alloc, SEATS)?;
    for _ in 0..SEATS {
        seats.push(seat(host, room, image, doorway)?)?;
    }
    Ok(seats)
}

impl<R: ServiceRuntime, L: Relink + Send + Drop + 'static> Console<R, L> {
    /// For the commands of a program, which this desk submits; a change of it goes on with another one. What shows of the
    /// controller is read of `status`. Four clients are served at once. Whoever only asks how the controller is, or what
    /// it has, needs no desk; for any other command or question a client takes the desk over from whoever has it.
    pub fn new(
        host: Host<R>,
        entrance: Entrance,
        desk: Desk<R, L>,
        image: &Image,
        status: StatusReader,
    ) -> Result<Console<R, L>, Failed> {
        let sight = desk.sight()?;
        let known = Known::of(host.alloc, image, status, desk.replicas(), sight)?;
        let cutter = desk.link().cutter()?;
        let Entrance { door, idle, key } = entrance;
        let room = room(host, desk, known, key)?;
        let seats = seats(host, &room, image, doorway_of(&door)?)?;
        Ok(Console {
            listener: Listener::new(host, door, seats, idle, WhenFull::TakesOver)?,
            cutter,
        })
    }
}

impl<R: DoorRuntime, L: Relink + Send + Drop + 'static> Console<R, L> {
    /// Takes connections as soon as its door is had; that it isn't at once is noted, and then that it is.
    pub fn open(self) -> Result<OpenConsole<R, L>, Failed> {
        let Console { listener, cutter } = self;
        Ok(OpenConsole {
            listener: listener.open_when_free()?,
            cutter,
        })
    }
}

/// A console that takes connections. It can't be let go of but by `close`, which joins its thread.
pub struct OpenConsole<R: ServiceRuntime, L: Relink + Drop> {
    listener: OpenListener<R, Seat<R, L>>,
    cutter: L::Cutter,
}

impl<R: ServiceRuntime, L: Relink + Drop> OpenConsole<R, L> {
    /// The port's number; 0 where it's a socket at a path.
    pub fn port(&self) -> u16 {
        self.listener.port()
    }

    /// Takes no connection any more, and ends the session, also one that waits for an answer, and the thread.
    pub fn close(self) {
        let OpenConsole { listener, cutter } = self;
        listener.shut();
        cutter.cut();
        listener.close();
    }
}
