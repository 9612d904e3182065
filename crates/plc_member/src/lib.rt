//! The process of one machine of a group, from epoch to epoch: its replica in a thread, the driver that has the group
//! scan while that replica leads, the port for Modbus clients, which is open only while outputs are shown, an
//! operator's console, a page, and the journal. It joins what `plc_store` keeps, `net_peers` connects and `vr_threads`
//! serves by what `plc_node_core` and `plc_host_core` decide.
//!
//! ```rust
//! let mut member = Member::open(host, "store")?; // locked
//! let stop = member.stop()?; // `stop.ask()` ends it, from any thread
//! let mut ended = None;
//! while let Some(begun) = member.next_life(host, &group, ended, &mut err)? { // waits until its epoch may be begun
//!     ended = Some(begun.serve::<Brand, _>(host, NewList::new(), &group, showing, &mut err)); // until it's left
//! }
//! ```
//!
//! A life of a machine begins from its store, as a process does, and ends where its epoch is left: then all of it is
//! closed, and the store has the later epoch before the next life begins.
//!
//! Proved: what is published is what a node takes of a message as released, and that message is put into the trace, if
//! there is one (`release`). Whether the port is open is what its node is told (`open`, `shut`), and the machine shows
//! that it drives exactly while it's open. How a node ends is how its machine's driver does, which leaves its epoch
//! only with what the store is to have (`parting_of`). Of an answer to a RECOVERY on a held link nothing is made
//! (`let_through`); a life ends for another epoch where that's to be done about epochs, and by nothing else
//! (`leaving_by`); no machine begins anew by itself whose program was changed (`is_automatic`). A replica is started as
//! new exactly where that was judged to be its first start (`way_of`, `files`). Nothing that its directory is to keep
//! is taken for kept which isn't, if the directory tells what it keeps: else the replica's link is dead
//! (`Marking::keep`). A frozen machine's link stays held (`link_order`). That no majority is heard, that an operator is
//! wanted and that a replica hangs are told exactly where that turned (`Majority`, `by_hand_notice`, `hang_notice`). By
//! its type: a store gets a later epoch only from the end of a life (`Left`).
//!
//! By its code alone, and tested (`tools/try/try-machines`): that what the node of a machine says is done before it's
//! asked again, that it's told what the replica shows, and that each message that comes reaches it; how threads, locks,
//! sockets and times are joined, so that the time of a clause is the present one and the inputs of a scan are one
//! sample of the stage; that a held link asks `let_through`; that a machine which stopped while it began an epoch
//! starts there as new, and had said nothing; that the scan which a node is shown is the last one that its replica's
//! log kept; that no answer is under way in the replica of a machine that freezes; that the store has an epoch as begun
//! before its replica says a word; that port, sessions and links are closed by the end of a life; that a disk which
//! hangs over a later epoch isn't waited for; that a step is looked at before its messages are sent, and that a dead
//! link sends none; that the replica of a machine that gives its view up times out (`GivingTimer`), and that what is
//! shown behind a held scan is as old as that.
#![tactic(auto)]

mod antechamber;
mod beginning;
mod begun;
mod both;
mod by_hand;
mod drive;
mod ended;
mod freezing;
mod giving_up;
mod held_link;
mod keeper;
mod life;
mod links;
mod looked;
mod majority;
mod neighbours;
mod opening;
mod port;
mod prober;
mod program;
mod publisher;
mod receiving;
mod scans;
mod services;
mod serving;
mod sights;
mod signals;
mod speaker;
mod starting;
mod stop;
mod storing;
mod teller;
mod tracer;
mod unserved;
mod watch;

pub use beginning::Beginning;
pub use begun::Begun;
pub use ended::{Ended, Left};
pub use opening::{MachineStore, Member};
pub use program::{Marker, Marks};
pub use serving::MachineRuntime;
pub use stop::Stop;
pub use unserved::Unserved;
