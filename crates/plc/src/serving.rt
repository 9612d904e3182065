//! A controller that is to be served: from which files, at which ports, and where its report goes.

ghost use Rattle.std.specs.Prelude.{◌≡◌, IfOk};

use crate::directories::refuse_unfit;
use crate::files::{are_same, is_among, refuse, tell_unread};
use crate::showing::showing_of;
use io_model::CountedWrite;
use plc_host::{Failed, Host};
use plc_serve::{Service, tell_failed};
use plc_settings::{ConsoleAt, ModbusClients, Operators, Settings};
use std::alloc::AllocError;
use std::fs;
use std::net::{SocketAddr, TcpListener};
use vr_threads::FileStore;

/// Standard output, as what can be looked at.
const OUTPUT: &str = "/dev/stdout";

/// A controller that is to be served.
#[derive(Drop)]
pub(crate) struct Serving {
    pub(crate) service: Service<FileStore<HostRuntime>>,
    /// Where its report goes, if one is wanted.
    pub(crate) report: Option<Report>,
}

impl Serving {
    /// From this file and these directories; or the status where it can't be, which is told.
    pub(crate) fn of<E: CountedWrite>(
        rt: &HostRuntime,
        source: &str,
        stores: &[&str],
        report: Option<&str>,
        settings: Settings,
        err: &mut E,
    ) -> Result<Serving, u8>
        ensures { IfOk result (λ serving. serving.service.settings ≡ settings) }
    {
        if let Some(path) = report
            && is_misplaced(rt, source, stores, path)
        {
            return Err(refuse(
                err,
                b"plc: the report lies over the source, a store or the output\n",
            ));
        }
        refuse_unfit(rt, stores, err)?;
        let serving = match opened(rt, source, stores, report, settings) {
            Ok(serving) => serving,
            Err(Failed::Device) => return Err(tell_unread(source, err)),
            Err(failed) => return Err(tell_failed(failed, err)),
        };
        match taken_port(rt, &settings) {
            Some(port) => Err(tell_failed(Failed::Port(port), err)),
            None => Ok(serving),
        }
    }
}

impl Serving {
    /// The same, with operators who come so, and these Modbus clients.
    pub(crate) fn with(self, operators: Operators, clients: ModbusClients) -> Serving
        ensures { result.service.settings ≡ self.service.settings }
    {
        Serving {
            service: self.service.with(operators, clients),
            report: self.report,
        }
    }
}

/// A controller that is to be served. Only reading the source is a device's failure.
fn opened(
    rt: &HostRuntime,
    source: &str,
    stores: &[&str],
    report: Option<&str>,
    settings: Settings,
) -> Result<Serving, Failed>
    ensures { IfOk result (λ serving. serving.service.settings ≡ settings) }
{
    let host = Host {
        rt: *rt,
        alloc: rt.alloc(),
    };
    Ok(Serving {
        report: match report {
            Some(path) => Some(Report::at(rt, path)?),
            None => None,
        },
        service: Service::new(
            host,
            source,
            stores,
            settings,
            showing_of(rt, settings.status.is_some())?,
        )?,
    })
}

/// A port of this machine.
fn own(port: u16) -> SocketAddr {
    SocketAddr::from(([127, 0, 0, 1], port))
}

/// The port of the console, if it has one.
fn console_port(settings: &Settings) -> Option<SocketAddr> {
    match settings.console {
        Some(ConsoleAt::Port(port)) => Some(own(port)),
        Some(ConsoleAt::Socket) | None => None,
    }
}

/// The port of a controller that is to be served which two of its doors are to have.
fn shared_port(settings: &Settings) -> Option<u16> {
    let clients = Some(own(settings.port));
    let console = console_port(settings);
    if console == clients || settings.status == clients {
        return Some(settings.port);
    }
    match console {
        Some(address) if settings.status == console => Some(address.port()),
        _ => None,
    }
}

/// A port of a controller that is to be served which two of its doors are to have, or else the one for Modbus if it
/// isn't to be had. That the console's or the page's is taken hinders nothing: it's tried again.
fn taken_port(rt: &HostRuntime, settings: &Settings) -> Option<u16> {
    if let Some(port) = shared_port(settings) {
        return Some(port);
    }
    match TcpListener::bind(rt, own(settings.port)) {
        Ok(_listener) => None,
        Err(_) => Some(settings.port),
    }
}

/// Whether a report would be written over the source, among the stores, or over the file that is standard output.
fn is_misplaced(rt: &HostRuntime, source: &str, stores: &[&str], path: &str) -> bool {
    are_same(rt, source, path)
        || is_among(rt, path, stores)
        || is_file(rt, path) && are_same(rt, OUTPUT, path)
}

/// Whether a path leads to a file of bytes that is there.
fn is_file(rt: &HostRuntime, path: &str) -> bool {
    match fs::metadata(rt, path) {
        Ok(there) => there.is_file(),
        Err(_) => false,
    }
}

/// Where a report goes.
#[derive(Drop)]
pub(crate) struct Report {
    path: String,
    /// Where it's written before it's put in its place. Without it, it's written straight into what is there.
    beside: Option<String>,
}

impl Report {
    /// To this path: into a device, a pipe or a link straight, and else into a file beside.
    fn at(rt: &HostRuntime, path: &str) -> Result<Report, AllocError> {
        let alloc = rt.alloc();
        Ok(Report {
            path: String::from_str(alloc, path)?,
            beside: if is_replaced(rt, path) {
                Some(format!(in alloc; "{path}.new")?)
            } else {
                None
            },
        })
    }

    /// The path at which it's written.
    pub(crate) fn written_at(&self) -> &str {
        match &self.beside {
            Some(beside) => beside.as_str(),
            None => self.path.as_str(),
        }
    }

    /// Puts what was written in its place, or takes away what there is of it behind a bad end: the status.
    fn settle<E: CountedWrite>(&self, rt: &HostRuntime, status: u8, err: &mut E) -> u8 {
        let Some(beside) = &self.beside else {
            return status;
        };
        if status != 0 {
            let _ = fs::remove_file(rt, beside.as_str());
            return status;
        }
        match fs::rename(rt, beside.as_str(), self.path.as_str()) {
            Ok(()) => status,
            Err(error) => tell_failed(Failed::from(error).known_as(Failed::Report), err),
        }
    }
}

/// The status of a controller that was served with this one, once its report is in its place.
pub(crate) fn settled<E: CountedWrite>(
    rt: &HostRuntime,
    status: u8,
    report: &Option<Report>,
    err: &mut E,
) -> u8 {
    match report {
        Some(report) => report.settle(rt, status, err),
        None => status,
    }
}

/// Whether a file may be put in the place of what is at a path: where nothing is there, or a file of bytes that isn't
/// reached by a link.
fn is_replaced(rt: &HostRuntime, path: &str) -> bool {
    match fs::symlink_metadata(rt, path) {
        Ok(there) => there.is_file(),
        Err(_) => true,
    }
}
