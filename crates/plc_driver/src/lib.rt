//! The scan driver of a served controller: a group of replicas in threads, which a thread of its own has scan once a
//! period, and whose replicas are watched and started anew where that's needed, by their own threads: a disk that hangs
//! holds up its replica and nothing else. Whoever starts it prints its journal meanwhile. It knows no field protocol and
//! no text.
//!
//! ```rust
//! let parts = Parts { links, stores, writer, journal, status, begun }; // links: the replicas', then the driver's
//! let driver = Driver::start(host, &settings, &image, parts)?; // each replica has started
//! let driven = driver.run(&rt, stage, &mut printer, &mut err); // after `settings.scans` releases
//! let Ended { mut journal, counts } = driven.end(&rt); // each replica has ended, or one hangs, which is noted
//! printer.finish(&mut journal, &mut err);
//! ```
//!
//! Proved: each scan that is submitted has a sample of the inputs and the moment at which it came; the driver publishes
//! just what its replies release (`specs/Driving`), and ends well only after exactly so many releases, where a number is
//! given; the scan after one is due a period later, or a period after one that came late (`specs/Driving`); what is put
//! into the journal of a replica or a scan is by what was seen (`specs/Watching`); who crashes on purpose, and when one
//! is started anew (`specs/Tending`); what is printed while it runs are lines of what was noted, in order, and the
//! journal that it leaves goes on that with which it was started. Saves of its replicas that failed are tried again by
//! `PatientStore` of vr_threads.
//!
//! Only tested: that the replicas of a group scan, crash and come back, and what clients see of it
//! (`tools/try/try-serve`). Nothing says when a scan comes, or that one does.
#![tactic(auto)]

mod crashes;
mod directory;
mod drive;
mod driving;
mod group;
mod links;
mod pace;
mod reviving;
mod saving;
mod watch;

pub use directory::{Directory, Taken};
pub use drive::Parts;
pub use driving::{Driven, Driver, DriverCounts, Ended};
pub use links::GroupLinks;
pub use pace::worked_dues;
