//! What `plc field` does with the text of a field.

use crate::control::bind;
use crate::field::Field;
use crate::page::{close_page, opened_page, table_of};
use crate::stop::stop;
use crate::table::{put_table, put_values};
use field_map::{FieldFault, FieldMap};
use field_page::{OpenFieldPage, PageAt};
use io_model::CountedWrite;
use mio::net::UnixListener;
use plc_host::{Failed, Host, ServiceRuntime};
use std::alloc::AllocError;
use std::fs::Files;
use std::net::{Net, TcpListener, TcpStream};
use std::time::Clock;
use thiserror::Error;

/// How far a field is run.
#[derive(Clone, Copy, Debug, PartialEq, Eq)]
pub enum Mode {
    /// Not at all: what goes where is printed.
    Check,
    /// Until each device was read and written, and what was read and written is printed.
    Once,
    /// Until it's asked to stop.
    Forever,
    /// Another process that runs this field is asked to stop.
    Stop,
}

/// How a field ended.
#[derive(Clone, Copy, Debug, PartialEq, Eq)]
pub enum Ended {
    /// As was asked for.
    Whole,
    /// The same, but a device or the controller was lost.
    Lossy,
}

/// Why a field isn't run, or not any more.
#[derive(Debug, Drop, Error)]
pub enum FieldError {
    /// Its text says none.
    #[error("{0}")]
    Text(FieldFault),
    /// Its text names no socket by which it's asked to stop.
    #[error("control: missing")]
    NoControl,
    /// That socket can't be made.
    #[error("control: not to be had")]
    Control,
    /// Another process runs with that socket.
    #[error("control: taken")]
    Taken,
    /// Nobody runs with that socket, or whoever does didn't say that it stopped.
    #[error("control: no answer")]
    NoAnswer,
    #[error("{0}")]
    Failed(Failed),
}

impl From<Failed> for FieldError {
    fn from(failed: Failed) -> FieldError {
        FieldError::Failed(failed)
    }
}

impl From<AllocError> for FieldError {
    fn from(_error: AllocError) -> FieldError {
        FieldError::Failed(Failed::Memory)
    }
}

/// Carries the inputs and outputs of the field that this text says. What is asked for goes to `out`, what changes to
/// `err`, a line each. While it goes on until it's asked to stop, it's shown at a page, if one is wanted. Nothing is
/// connected where the text has a fault, or the page's port isn't to be had.
pub fn run_field<R, W, E>(
    host: Host<R>,
    text: &str,
    mode: Mode,
    page: Option<PageAt>,
    out: &mut W,
    err: &mut E,
) -> Result<Ended, FieldError>
where
    R: ServiceRuntime + Files + Net<Listener = TcpListener, Stream = TcpStream>,
    W: CountedWrite,
    E: CountedWrite,
{
    let map = match FieldMap::read(host.alloc, text) {
        Ok(map) => map,
        Err(fault) => return Err(FieldError::Text(fault)),
    };
    match mode {
        Mode::Check => {
            put_table(host.alloc, &map, out)?;
            Ok(Ended::Whole)
        }
        Mode::Once => run_once(host, map, out, err),
        Mode::Forever => {
            let listener = listener_of(&host.rt, &map)?;
            carry(host, map, listener, page, err)
        }
        Mode::Stop => stop(&host.rt, &map),
    }
}

/// The socket by which it's asked to stop, if its text names one.
fn listener_of<R: Files + Net>(rt: &R, map: &FieldMap) -> Result<Option<UnixListener>, FieldError> {
    match &map.control {
        Some(path) => Ok(Some(bind(rt, path.as_str())?)),
        None => Ok(None),
    }
}

/// Carries until it's asked to stop, or it fails: outputs fall back then, as far as that can be had. Meanwhile it's
/// shown at the page, if there is one.
fn carry<R, E>(
    host: Host<R>,
    map: FieldMap,
    listener: Option<UnixListener>,
    page: Option<PageAt>,
    err: &mut E,
) -> Result<Ended, FieldError>
where
    R: ServiceRuntime + Net<Listener = TcpListener, Stream = TcpStream>,
    E: CountedWrite,
{
    let table = table_of(host.alloc, &map)?;
    let mut field = Field::new(host, map, listener)?;
    let page = opened_page(&field.host, page, table, &field.cycle)?;
    let ended = go_on(&mut field, &page, err);
    close_page(page);
    ended
}

/// The same, with the page that is there.
fn go_on<R, E>(
    field: &mut Field<R>,
    page: &Option<OpenFieldPage<R>>,
    err: &mut E,
) -> Result<Ended, FieldError>
where
    R: ServiceRuntime + Net,
    E: CountedWrite,
{
    let rt = field.host.rt;
    let mut due = 0;
    for _ in rt.forever() {
        match field.turn(err) {
            Ok(false) => {}
            Ok(true) => {
                field.stop(err)?;
                return Ok(Ended::Whole);
            }
            Err(failed) => return Err(FieldError::Failed(fallen_back(field, failed, err))),
        }
        if let Some(page) = page {
            due = field.show(page, due);
        }
    }
    Ok(Ended::Whole)
}

/// Until each device was read and written, and what was read and written; then outputs fall back.
fn run_once<R, W, E>(
    host: Host<R>,
    map: FieldMap,
    out: &mut W,
    err: &mut E,
) -> Result<Ended, FieldError>
where
    R: Net + Clock + Copy + Drop,
    W: CountedWrite,
    E: CountedWrite,
{
    let mut field = Field::new(host, map, None)?;
    field.carry_once(err)?;
    put_values(host.alloc, field.cycle.stations.as_slice(), out)?;
    field.cycle.stop();
    field.settle(err)?;
    Ok(field.ended())
}

/// Ends a field that failed: outputs fall back, as far as that can be had.
fn fallen_back<R, E>(field: &mut Field<R>, failed: Failed, err: &mut E) -> Failed
where
    R: Net + Clock + Copy + Drop,
    E: CountedWrite,
{
    field.cycle.stop();
    let _ = field.settle(err);
    failed
}
