//! What a page is opened with.

use crate::answer::Site;
use crate::notices::Notices;
use crate::outputs::{Named, outputs};
use crate::process::ProcessFiles;
use crate::service::{Content, Page};
use crate::source::Source;
use crate::whose::Whose;
use il_lister::list;
use il_loader::Image;
use io_image::{Naming, ReleasedReader};
use io_model::Counted;
use plc_host::{Failed, Host};
use plc_listener::{Door, DoorRuntime};
use plc_sight::SnapshotBoard;
use plc_status::{Journal, StatusReader};
use std::alloc::{AllocError, Global};
use std::hash::RandomState;
use std::net::SocketAddr;
use std::sync::Arc;
use std::sync::atomic::AtomicBool;
use std::time::{Duration, Instant};

/// In milliseconds: the last release began so long ago at most, or three periods, where nothing is wrong.
const LONGEST_AGE: u64 = 1000;

/// What the page is called by whoever serves it, and what it shows beside what is published: lines that were told.
#[derive(Drop)]
pub struct Showing {
    /// Of the program that serves it.
    pub version: &'static str,
    pub notices: Arc<Notices>,
    /// Of the tables of the fields of requests.
    pub keys: RandomState,
    /// What this process takes, if that is shown.
    pub process: Option<ProcessFiles>,
}

/// What is published of a controller, from when its moments count, and where what becomes of its page is noted.
#[derive(Drop)]
pub struct Published<J: Naming> {
    pub whose: Whose,
    /// In milliseconds, from one scan to the next.
    pub period: u32,
    pub status: StatusReader,
    pub released: ReleasedReader<J>,
    pub begun: Instant,
    /// The program may be another one than that which was served at first. It's set before that is so.
    pub has_changed: Arc<AtomicBool>,
    /// Where a replica leaves what it has for those who want to see it.
    pub sight: Arc<SnapshotBoard>,
    /// Where it's noted that the page's port isn't to be had at once, and then that it is.
    pub journal: Journal,
}

/// Adds a name with its port as a `Host` has it: the port of HTTP needn't be told.
fn add_host(alloc: Global, hosts: &mut Vec<Vec<u8>>, name: &str) -> Result<(), AllocError> {
    if let Some(short) = name.strip_suffix(":80") {
        hosts.push(Vec::from_slice(alloc, short.as_bytes())?)?;
    }
    Ok(hosts.push(Vec::from_slice(alloc, name.as_bytes())?)?)
}

/// The names under which an address is asked for.
fn hosts_of(alloc: Global, address: SocketAddr) -> Result<Vec<Vec<u8>>, AllocError> {
    let mut hosts = Vec::new(alloc);
    add_host(alloc, &mut hosts, format!(in alloc; "{address}")?.as_str())?;
    if address.ip().is_loopback() {
        let port = address.port();
        add_host(
            alloc,
            &mut hosts,
            format!(in alloc; "localhost:{port}")?.as_str(),
        )?;
    }
    Ok(hosts)
}

impl Site {
    /// What is asked for by this address, of a program of this version.
    pub fn at(
        alloc: Global,
        address: SocketAddr,
        version: &'static str,
    ) -> Result<Site, AllocError> {
        Ok(Site {
            hosts: hosts_of(alloc, address)?,
            version: version.as_bytes(),
        })
    }
}

/// The text of a program.
fn listing_of(alloc: Global, image: &Image) -> Result<Vec<u8>, AllocError> {
    let mut text = Vec::new(alloc);
    match list(image, &mut Counted::new(&mut text)) {
        Ok(()) => Ok(text),
        Err(_) => Err(AllocError),
    }
}

/// Where what shows is read, by what is published; and where what becomes of the page is noted.
fn source_of<J: Naming>(
    published: Published<J>,
    outputs: Vec<Named>,
    notices: Arc<Notices>,
    process: Option<ProcessFiles>,
) -> (Source<J>, Journal) {
    let Published {
        whose,
        period,
        status,
        released,
        begun,
        has_changed,
        sight,
        journal,
    } = published;
    let source = Source {
        status,
        released,
        outputs,
        whose,
        begun,
        longest_age: Duration::from_millis(LONGEST_AGE.max(3 * u64::from(period))),
        has_changed,
        sight,
        notices,
        process,
    };
    (source, journal)
}

impl<R: DoorRuntime, J: Naming + Send + Sync + 'static> Page<R, J> {
    /// The page of a controller, for connections at this address: kept from now on if its port is free, and else as soon
    /// as it is, once the page is opened. The program is that of the image, until it's changed.
    pub fn new(
        host: Host<R>,
        address: SocketAddr,
        image: &Image,
        showing: Showing,
        published: Published<J>,
    ) -> Result<Page<R, J>, Failed> {
        let alloc = host.alloc;
        let Showing {
            version,
            notices,
            keys,
            process,
        } = showing;
        let site = Site::at(alloc, address, version)?;
        let outputs = outputs(alloc, image)?;
        let (source, journal) = source_of(published, outputs, notices, process);
        let content = Content {
            site,
            program: listing_of(alloc, image)?,
            source,
            keys,
        };
        Page::of(host, Door::wanted(&host, address), content, journal)
    }
}
