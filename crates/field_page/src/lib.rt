//! What shows of a field while it's carried, for a browser and for Prometheus: a page, figures and JSON at a port, over
//! HTTP/1.1, as plc_page shows a controller. It's only read: nothing of the field is changed by it, and no round waits
//! for it.
//!
//! ```rust
//! let page = FieldPage::new(host, at, showing, table, &cycle)?; // `table`: what goes where, a line each
//! let open = page.open()?; // GET /, /state and /metrics are answered from now on
//! open.show(&host, &cycle); // from now on this shows; nobody is waited for
//! open.close();
//! ```
//!
//! Proved: what shows is what the cycle has, of the controller and of each device under its own name
//! (`specs/Readings`); each text is the definition's of what shows, and nothing else (`specs/Texts`, `specs/Metrics`,
//! `specs/State`, `specs/Page`); what a request is answered is a function of its method, its path, its host and of what
//! was read (`specs/Sites`, `specs/Answers`).
//!
//! By its code alone, and tried with `tools/try/try-field`: the service at its port, and that a page shows what was
//! shown last.
#![tactic(auto)]

mod answer;
mod metrics;
mod page;
mod reading;
mod service;
mod site;
mod state;
mod text;

pub use answer::respond;
pub use reading::{Party, Reading, Shown, State, reading_of};
pub use service::{FieldPage, OpenFieldPage, PageAt};
pub use site::FieldSite;
