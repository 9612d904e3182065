//! What shows of a controller while it runs, for a browser and for Prometheus: a page, figures and JSON at a port, over
//! HTTP/1.1. It's only read: nothing of the controller is changed by it, and nothing that scans waits for it.
//!
//! ```rust
//! let notices = Arc::new(alloc, Notices::new(alloc))?;
//! let mut err = Counted::new(Telling::new(rt, rt.stderr(), Some(notices))); // what is told is kept
//! let page = Page::new(host, address, &image, showing, published)?; // at 127.0.0.1:8080
//! let open = page.open()?; // GET /, /state and /metrics are answered from now on
//! open.close();
//! ```
//!
//! Proved: what a request is answered is a function of its method, its path, its host and of what was read
//! (`specs/Answers`): 200 with the page, the JSON or the figures, or 400, 404, 405, 421; the values of variables that
//! show are told of one controller, so of one scan (`AreSeen`); each output has the value at
//! its own place (`specs/Sources`), under the name of a variable that lies there, or else of the first one that an
//! instance hands over there (`specs/Outputs`); the last 200 lines that were told are kept (`specs/Sources`). What goes
//! out over a connection answers the requests that came in, in order (`http_server` of the kit).
//!
//! Tests: `page.rows` of `tools/try/serving` have what requests are answered. By its code alone, and tried with curl,
//! promtool and a browser (`tools/try/try-page`): the service at its port, and what is read when.
#![tactic(auto)]

mod answer;
mod notices;
mod outputs;
mod page;
mod process;
mod service;
mod shown;
mod source;
mod whose;

pub use answer::{Show, Site, Verdict, put_answer, respond, verdict_of};
pub use notices::{Notices, Telling};
pub use page::STYLE;
pub use process::ProcessFiles;
pub use service::{OpenPage, Page, limits};
pub use shown::{Published, Showing};
pub use whose::Whose;
