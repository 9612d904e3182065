//! An operator's console: commands of a controller as lines that come in, each submitted as a client of the group and
//! answered by its line. A session runs over any reader and writer and over whatever submits its commands, and a
//! command is asked for over any link; the service has both behind a port of this machine, one connection at a time.
//!
//! ```rust
//! let period = Duration::from_millis(100);
//! let client = DeskClient { number: ClientNumber { number: 1 }, starts: 0 }; // one that never started before
//! let desk = Desk::new(host, config, client, link, period, journals.console); // over this link to the group
//! let entrance = Entrance { door: Door::open(&rt, 5021)?, idle: Duration::from_secs(60), key: None };
//! let console = Console::new(host, entrance, desk, &image, status.reader()?)?;
//! let open = console.open()?; // lines are answered from now on
//! open.close(); // ends each session, also one that waits for an answer
//! ```
//!
//! Four clients are served at once. Whoever only asks how the controller is, or what it has (`"values"`,
//! `{"watch": [..]}`), is told it, whatever the group does; for anything else a client takes the desk over, which one of
//! them has at a time. Where the console has a key, a client tells it first, as a line. What the controller has is told
//! of one snapshot, which the thread of a replica leaves: by the clauses of `plc_values`.
//!
//! Proved: `serve_console` gives each whole line its turn, in order. Its command is submitted and answered once, a name
//! being that of the program in force, which a change that is done replaces, or it's refused, as a scan is; the line of
//! the answer, or of the fault, is written. A question is answered by what the desk tells, and submits nothing. A session
//! ends by Closed only at the reader's end, by Device only where the reader or the writer failed, by Dismissed only at a
//! line of HTTP (`specs/Web`) or at the third in a row that would be refused: nothing is done for that one, nor for what
//! comes behind it. Where it ends otherwise, a prefix of the answers went out. A key is told by its bytes alone (`is_key`).
//! `ask` submits one command as a client by the replication rules, sends nothing but that very request again, and answers
//! by the first REPLY with its number; given up, it's let go by a client that starts again. `send_commands` answers Ok
//! only where each command went out as a line, and what came back up to the end of a line was printed before the next.
//!
//! What a command changed that wasn't refused is noted once in a journal, by a clause of what submits it
//! (`specs/Sessions`). What is told of forces, breakpoints and the program is that of a mirror: a controller that takes
//! each command that was done. It stays alike, whatever scans the other one makes (`mirrors_stay`). Where other
//! consoles give commands, too, a session begins with a mirror of a snapshot of the controller (`Others`), and what
//! they do while it lasts it doesn't know.
//!
//! Only tested: how answers to questions are spelled, that a request is sent again when a period went by, and the
//! service: what is answered without the desk, that a key comes first, who takes the desk over, with a group behind it
//! that loses its primary (`tools/try/try-serve`). Nothing says that an answer comes.
#![tactic(auto)]

mod asking;
mod desk;
mod fetching;
mod front;
mod key;
mod line;
mod mirror;
mod others;
mod patience;
mod room;
mod sending;
mod service;
mod session;
mod telling;
mod web;

pub use asking::ask;
pub use desk::{Desk, DeskClient};
pub use fetching::{Fetched, fetch_image, images_are_read_back};
pub use mirror::mirrors_stay;
pub use others::Others;
pub use patience::Patience;
pub use plc_sight::SnapshotBoard;
pub use sending::{Reply, send_commands, send_key, worst};
pub use service::{Console, Entrance, OpenConsole};
pub use session::{SessionEnd, Submits, Unanswered, serve_console};
