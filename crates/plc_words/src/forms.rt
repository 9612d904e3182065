//! The forms of a call.

ghost use Rattle.std.specs.Prelude.{◌≡◌, IfOk, IfSome};
ghost use Rattle.plc_words.specs.Asked.{IsLostAfterAMinute};

use crate::clients::modbus_clients;
use crate::commands::program;
use crate::console::{AskedConsole, Fetching, Origin, origin_of, place_of};
use crate::error::WordsError;
use crate::operators::OperatorsAt;
use crate::options::{
    BUDGET, CHANGE, CHANGED, CHECK, CONSOLE, CONSOLE_KEY, CONSOLE_SOCKET, CRASH, DIRECTORY, EPOCH,
    EVERY, FAILURES, FAULTS, FORGET, GROUP, HOURS, IDLE, IMAGE, LINKS, LISTED, MACHINE, NEW_GROUP,
    NEW_KEY, NEXT_EPOCH, ONCE, PERIOD, PLACE, PORT, POSITION, REPORT, SCANS, SEED, STALE, STATUS,
    STOP, STORE, TCP, TIMEOUT, TRACE, UNTIL, WAIT,
};
use crate::places::place_at;
use clap::ArgMatches;
use il_model::Budget;
use il_places::Asked;
use plc_settings::{ConsoleAt, Links, ModbusClients, Settings};
use std::alloc::{AllocError, Global};
use std::convert::AsStr;
use std::net::SocketAddr;
use vr_model::Config;

pub const VERSION: &str = "0.1.0";

/// In seconds: a served controller ends after so long without a majority of its replicas.
const LOST_AFTER: u32 = 60;

const NO_FORM: &str = "error: the words name no form of call\n";

const NO_ADDRESS: &str =
    "error: --status is a port, 1 to 65535, or an address of this machine with one\n";

const NO_CONSOLE: &str =
    "error: CONSOLE is a port, 1 to 65535, an address with one, or a path with a '/'\n";

const NO_CONSOLE_AT: &str = "error: --console-key is given beside --console or --console-socket\n";

const NO_PLACE: &str = "error: AT is a line, from 1, or a line and a column, as 13:5\n";

const NO_STORES: &str = "error: --store is given once, or once for each of the 2F+1 replicas\n";

const NO_STORE: &str = "error: --store is given once beside --group\n";

/// The program with which an epoch begins.
#[derive(Clone, Copy, Debug, PartialEq, Eq)]
pub enum EpochProgram<'a> {
    /// The one of the store.
    Kept,
    /// The one to which that was changed.
    Changed,
    /// The one of this file.
    Given(&'a str),
}

/// What the words ask for.
#[derive(Drop, PartialEq, Eq)]
pub enum Words<'a> {
    /// Writes the image of a program to a file.
    Asm {
        source: &'a str,
        image: &'a str,
    },
    /// Prints the listing of an image.
    List {
        image: &'a str,
    },
    /// Prints the names of a program with their places.
    Names {
        source: &'a str,
    },
    /// Prints whether two programs are the same, and what a change from one to the other does to their names.
    Diff {
        old: Origin<'a>,
        new: Origin<'a>,
        fetching: Fetching<'a>,
    },
    /// Prints where the instructions of a program stand in its text.
    Where {
        source: &'a str,
        asked: Asked,
    },
    /// Runs the program of a file over the commands of another, each scan within the budget.
    Run {
        source: &'a str,
        commands: &'a str,
        budget: Budget,
    },
    /// Runs the schedule of a file over a group of replicas of the program of another, each scan within the budget.
    Sim {
        source: &'a str,
        schedule: &'a str,
        config: Config,
        budget: Budget,
    },
    /// Runs the group of a file by virtual time, each machine of which runs the program of another.
    SimGroup {
        source: &'a str,
        /// The file of the group.
        group: &'a str,
        seed: u32,
        /// Of virtual time.
        hours: u32,
        /// The words of the kinds of faults that come.
        faults: Vec<&'a str>,
        /// The step behind which it ends, if that is before.
        until: Option<u64>,
        /// Whether what happens is printed.
        is_traced: bool,
    },
    /// Makes the store of a machine, which begins with the program of a file.
    Format {
        source: &'a str,
        /// The file of its group.
        group: &'a str,
        /// Its place in that file, from 0.
        machine: u8,
        /// Whether its disk was lost, so that it waits for an epoch.
        waits: bool,
        directory: &'a str,
    },
    /// Draws the identity of a group into its file.
    NewGroup {
        group: &'a str,
    },
    /// Draws a key for the machines of a group into a file.
    NewKey {
        path: &'a str,
    },
    /// Puts the store of a machine into an epoch by hand.
    EnterEpoch {
        /// The file of its group.
        group: &'a str,
        /// The number of the epoch; without it, it's the next one.
        epoch: Option<u32>,
        program: EpochProgram<'a>,
        /// Whether the operator has said that what the group has in memory may be lost.
        forgets: bool,
        directory: &'a str,
    },
    /// Prints what the store of a machine has.
    Show {
        directory: &'a str,
    },
    /// Prints the listing of the program of a store, or of the one to which that was changed.
    Listing {
        is_changed: bool,
        directory: &'a str,
    },
    /// Serves the program of a file to Modbus clients, by a group of replicas with stores in directories.
    Serve {
        source: &'a str,
        /// One directory for all replicas, or one for each, in their order.
        stores: Vec<&'a str>,
        /// The file of the report, if one is wanted.
        report: Option<&'a str>,
        settings: Settings,
        operators: OperatorsAt<'a>,
        clients: ModbusClients,
    },
    /// Serves one machine of a group, whose store is in a directory.
    ServeMachine {
        /// The file of its group.
        group: &'a str,
        directory: &'a str,
        /// The file of its trace, if one is wanted.
        trace: Option<&'a str>,
    },
    /// Sends the commands of a file to a console, and prints what it answers.
    Ask {
        console: AskedConsole<'a>,
        commands: &'a str,
    },
    /// Writes the program that is somewhere to a file, or to standard output.
    Fetch {
        origin: Origin<'a>,
        fetching: Fetching<'a>,
        file: &'a str,
        /// Whether it's the image that is written, and not the listing.
        is_image: bool,
    },
    /// Carries inputs and outputs of the field of a file.
    Field {
        field: &'a str,
        /// Whether what goes where is printed, and nothing is carried.
        check: bool,
        /// Whether it ends after one cycle, and what was read and written is printed.
        once: bool,
        /// Whether another process that carries is asked to end.
        stop: bool,
        /// Where what shows is served, if it is.
        status: Option<SocketAddr>,
    },
    /// Sends the change to the program of a file to a console, and prints what it answers.
    Change {
        console: AskedConsole<'a>,
        source: &'a str,
    },
}

/// What the words of a call ask for; the first word is the program's own name.
pub fn read_words<'a, S: AsStr>(alloc: Global, given: &'a [S]) -> Result<Words<'a>, WordsError>
    // A controller that is served ends after a minute without a majority of its replicas, whatever the words.
    ensures lost { IfOk result IsLostAfterAMinute }
{
    let matches = match program(alloc)?.try_get_matches_from(given) {
        Ok(matches) => matches,
        Err(error) => return Err(WordsError::of(alloc, &error)),
    };
    let form = form_of(alloc, &matches);
    drop(matches);
    match form? {
        Some(form) => Ok(form),
        None => Err(WordsError::Bad(String::from_str(alloc, NO_FORM)?)),
    }
}

/// The size of the group, and how often its replicas make checkpoints.
fn group(inner: &ArgMatches) -> Option<Config> {
    Config::new(inner.get_one::<u8>(FAILURES)?, inner.get_one::<u16>(EVERY)?)
}

/// How a controller is to be served.
fn settings(inner: &ArgMatches) -> Option<Settings>
    ensures { IfSome result (λ settings. settings.lost_after ≡ 60) }
{
    Some(Settings {
        config: group(inner)?,
        budget: budget(inner)?,
        port: inner.get_one::<u16>(PORT)?,
        period: inner.get_one::<u32>(PERIOD)?,
        scans: inner.get_one::<u32>(SCANS),
        idle: inner.get_one::<u32>(IDLE)?,
        links: if inner.get_str(LINKS)? == TCP {
            Links::Tcp
        } else {
            Links::Channels
        },
        crash: inner.get_one::<u32>(CRASH),
        lost_after: LOST_AFTER,
        console: console_at(inner),
        stale: inner.get_one::<u32>(STALE),
        status: None,
    })
}

/// Where an operator's console is served, if one is.
fn console_at(inner: &ArgMatches) -> Option<ConsoleAt> {
    match inner.get_str(CONSOLE_SOCKET) {
        Some(_) => Some(ConsoleAt::Socket),
        None => Some(ConsoleAt::Port(inner.get_one::<u16>(CONSOLE)?)),
    }
}

/// A port of this machine, or an address of its own with a port.
fn address_of(text: &str) -> Option<SocketAddr> {
    let address = match text.parse::<u16>() {
        Ok(port) => SocketAddr::from(([127, 0, 0, 1], port)),
        Err(_) => text.parse::<SocketAddr>().ok()?,
    };
    if address.port() == 0 || address.ip().is_unspecified() {
        return None;
    }
    Some(address)
}

/// Where what shows is served, if it is.
fn shown_at(alloc: Global, inner: &ArgMatches) -> Result<Option<SocketAddr>, WordsError> {
    let Some(text) = inner.get_str(STATUS) else {
        return Ok(None);
    };
    match address_of(text) {
        Some(address) => Ok(Some(address)),
        None => Err(WordsError::Bad(String::from_str(alloc, NO_ADDRESS)?)),
    }
}

/// The directories for the stores.
fn directories<'a>(alloc: Global, inner: &ArgMatches<'a>) -> Result<Vec<&'a str>, AllocError> {
    given_strs(alloc, inner, STORE)
}

/// The values of an option that may be given more than once.
fn given_strs<'a>(
    alloc: Global,
    inner: &ArgMatches<'a>,
    word: &str,
) -> Result<Vec<&'a str>, AllocError> {
    let mut values = Vec::new(alloc);
    if let Some(given) = inner.get_strs(word) {
        for value in given {
            values.push(*value)?;
        }
    }
    Ok(values)
}

/// What is to be served, in one directory or in one for each replica.
fn served<'a>(
    alloc: Global,
    inner: &ArgMatches<'a>,
    settings: Settings,
) -> Result<Option<Words<'a>>, WordsError>
    requires { settings.lost_after ≡ 60 }
    ensures { IfOk result (λ form. IfSome form IsLostAfterAMinute) }
{
    let stores = directories(alloc, inner)?;
    if stores.len() != 1 && stores.len() != usize::from(settings.config.group_size()) {
        return Err(WordsError::Bad(String::from_str(alloc, NO_STORES)?));
    }
    let operators = OperatorsAt {
        socket: inner.get_str(CONSOLE_SOCKET),
        key: inner.get_str(CONSOLE_KEY),
    };
    if operators.key.is_some() && settings.console.is_none() {
        return Err(WordsError::Bad(String::from_str(alloc, NO_CONSOLE_AT)?));
    }
    let Some(source) = inner.get_str("SOURCE") else {
        return Ok(None);
    };
    let settings = Settings {
        status: shown_at(alloc, inner)?,
        ..settings
    };
    Ok(Some(Words::Serve {
        source,
        stores,
        report: inner.get_str(REPORT),
        settings,
        operators,
        clients: modbus_clients(alloc, inner)?,
    }))
}

/// A controller that is to be served by replicas of its own.
fn served_alone<'a>(alloc: Global, inner: &ArgMatches<'a>) -> Result<Option<Words<'a>>, WordsError>
    ensures { IfOk result (λ form. IfSome form IsLostAfterAMinute) }
{
    match settings(inner) {
        Some(settings) => served(alloc, inner, settings),
        None => Ok(None),
    }
}

/// The machine of a group that is to be served, from the one directory of its store.
fn served_machine<'a>(
    alloc: Global,
    inner: &ArgMatches<'a>,
    group: &'a str,
) -> Result<Option<Words<'a>>, WordsError>
    ensures { IfOk result (λ form. IfSome form IsLostAfterAMinute) }
{
    let stores = directories(alloc, inner)?;
    match stores.as_slice() {
        [directory] => Ok(Some(Words::ServeMachine {
            group,
            directory,
            trace: inner.get_str(TRACE),
        })),
        _ => Err(WordsError::Bad(String::from_str(alloc, NO_STORE)?)),
    }
}

fn form_of<'a>(alloc: Global, matches: &ArgMatches<'a>) -> Result<Option<Words<'a>>, WordsError>
    ensures { IfOk result (λ form. IfSome form IsLostAfterAMinute) }
{
    let Some((name, inner)) = matches.subcommand() else {
        return Ok(None);
    };
    match name {
        "serve" => match inner.get_str(GROUP) {
            Some(group) => served_machine(alloc, inner, group),
            None => served_alone(alloc, inner),
        },
        "sim" => simulated(alloc, inner),
        "ask" => asked(alloc, inner),
        "where" => located(alloc, inner),
        "field" => carried(alloc, inner),
        _ => Ok(worked(name, inner)),
    }
}

/// A call that works on files and ends.
fn worked<'a>(name: &str, inner: &ArgMatches<'a>) -> Option<Words<'a>>
    ensures { IfSome result IsLostAfterAMinute }
{
    match name {
        "asm" => assembled(inner),
        "list" => listed(inner),
        "names" => named(inner),
        "diff" => compared(inner),
        "run" => run(inner),
        "format" => formatted(inner),
        "show" => shown(inner),
        "fetch" => fetched(inner),
        _ => None,
    }
}

fn assembled<'a>(inner: &ArgMatches<'a>) -> Option<Words<'a>>
    ensures { IfSome result IsLostAfterAMinute }
{
    Some(Words::Asm {
        source: inner.get_str("SOURCE")?,
        image: inner.get_str("IMAGE")?,
    })
}

fn listed<'a>(inner: &ArgMatches<'a>) -> Option<Words<'a>>
    ensures { IfSome result IsLostAfterAMinute }
{
    Some(Words::List {
        image: inner.get_str("IMAGE")?,
    })
}

fn named<'a>(inner: &ArgMatches<'a>) -> Option<Words<'a>>
    ensures { IfSome result IsLostAfterAMinute }
{
    Some(Words::Names {
        source: inner.get_str("SOURCE")?,
    })
}

fn compared<'a>(inner: &ArgMatches<'a>) -> Option<Words<'a>>
    ensures { IfSome result IsLostAfterAMinute }
{
    Some(Words::Diff {
        old: origin_of(inner.get_str("OLD")?),
        new: origin_of(inner.get_str("NEW")?),
        fetching: fetching(inner)?,
    })
}

/// How a console is asked, where a program is to be had of one.
fn fetching<'a>(inner: &ArgMatches<'a>) -> Option<Fetching<'a>> {
    Some(Fetching {
        timeout: inner.get_one::<u32>(TIMEOUT)?,
        key: inner.get_str(CONSOLE_KEY),
    })
}

fn fetched<'a>(inner: &ArgMatches<'a>) -> Option<Words<'a>>
    ensures { IfSome result IsLostAfterAMinute }
{
    Some(Words::Fetch {
        origin: origin_of(inner.get_str("FROM")?),
        fetching: fetching(inner)?,
        file: inner.get_str("FILE")?,
        is_image: inner.get_flag(IMAGE),
    })
}

/// The positions that are asked for; none where the place is none.
fn asked_for(inner: &ArgMatches) -> Option<Asked> {
    if let Some(position) = inner.get_one::<u32>(POSITION) {
        return Some(Asked::Position(position as usize));
    }
    match inner.get_str(PLACE) {
        Some(word) => place_at(word),
        None => Some(Asked::All),
    }
}

/// A program of which places are asked for.
fn located<'a>(alloc: Global, inner: &ArgMatches<'a>) -> Result<Option<Words<'a>>, WordsError>
    ensures { IfOk result (λ form. IfSome form IsLostAfterAMinute) }
{
    let Some(source) = inner.get_str("SOURCE") else {
        return Ok(None);
    };
    match asked_for(inner) {
        Some(asked) => Ok(Some(Words::Where { source, asked })),
        None => Err(WordsError::Bad(String::from_str(alloc, NO_PLACE)?)),
    }
}

fn run<'a>(inner: &ArgMatches<'a>) -> Option<Words<'a>>
    ensures { IfSome result IsLostAfterAMinute }
{
    Some(Words::Run {
        source: inner.get_str("SOURCE")?,
        commands: inner.get_str("COMMANDS")?,
        budget: budget(inner)?,
    })
}

/// What is run by virtual time: a schedule, or a group.
fn simulated<'a>(alloc: Global, inner: &ArgMatches<'a>) -> Result<Option<Words<'a>>, WordsError>
    ensures { IfOk result (λ form. IfSome form IsLostAfterAMinute) }
{
    match inner.get_str(GROUP) {
        Some(group) => Ok(simulated_group(alloc, inner, group)?),
        None => Ok(simulated_schedule(inner)),
    }
}

fn simulated_group<'a>(
    alloc: Global,
    inner: &ArgMatches<'a>,
    group: &'a str,
) -> Result<Option<Words<'a>>, AllocError>
    ensures { IfOk result (λ form. IfSome form IsLostAfterAMinute) }
{
    let faults = given_strs(alloc, inner, FAULTS)?;
    let (Some(source), Some(seed), Some(hours)) = (
        inner.get_str("SOURCE"),
        inner.get_one::<u32>(SEED),
        inner.get_one::<u32>(HOURS),
    ) else {
        return Ok(None);
    };
    Ok(Some(Words::SimGroup {
        source,
        group,
        seed,
        hours,
        faults,
        until: inner.get_one::<u64>(UNTIL),
        is_traced: inner.get_flag(TRACE),
    }))
}

fn simulated_schedule<'a>(inner: &ArgMatches<'a>) -> Option<Words<'a>>
    ensures { IfSome result IsLostAfterAMinute }
{
    Some(Words::Sim {
        source: inner.get_str("SOURCE")?,
        schedule: inner.get_str("SCHEDULE")?,
        config: group(inner)?,
        budget: budget(inner)?,
    })
}

/// How many instructions a scan may perform.
fn budget(inner: &ArgMatches) -> Option<Budget> {
    Budget::new(inner.get_one::<u32>(BUDGET)?)
}

/// What is printed of a store.
fn shown<'a>(inner: &ArgMatches<'a>) -> Option<Words<'a>>
    ensures { IfSome result IsLostAfterAMinute }
{
    let directory = inner.get_str(DIRECTORY)?;
    if inner.get_flag(LISTED) {
        return Some(Words::Listing {
            is_changed: inner.get_flag(CHANGED),
            directory,
        });
    }
    Some(Words::Show { directory })
}

/// The group that is to be made, or the store, or the epoch into which that is put.
fn formatted<'a>(inner: &ArgMatches<'a>) -> Option<Words<'a>>
    ensures { IfSome result IsLostAfterAMinute }
{
    if let Some(path) = inner.get_str(NEW_KEY) {
        return Some(Words::NewKey { path });
    }
    let group = inner.get_str(GROUP)?;
    if inner.get_flag(NEW_GROUP) {
        return Some(Words::NewGroup { group });
    }
    let epoch = inner.get_one::<u32>(EPOCH);
    if inner.get_flag(NEXT_EPOCH) || epoch.is_some() {
        return Some(Words::EnterEpoch {
            group,
            epoch,
            program: program_of(inner),
            forgets: inner.get_flag(FORGET),
            directory: inner.get_str(STORE)?,
        });
    }
    Some(Words::Format {
        source: inner.get_str("SOURCE")?,
        group,
        machine: inner.get_one::<u8>(MACHINE)?,
        waits: inner.get_flag(WAIT),
        directory: inner.get_str(STORE)?,
    })
}

/// The program with which an epoch is to begin.
fn program_of<'a>(inner: &ArgMatches<'a>) -> EpochProgram<'a> {
    match inner.get_str("SOURCE") {
        Some(source) => EpochProgram::Given(source),
        None if inner.get_flag(CHANGED) => EpochProgram::Changed,
        None => EpochProgram::Kept,
    }
}

/// What is carried: the inputs and outputs of the field of a file.
fn carried<'a>(alloc: Global, inner: &ArgMatches<'a>) -> Result<Option<Words<'a>>, WordsError>
    ensures { IfOk result (λ form. IfSome form IsLostAfterAMinute) }
{
    let status = shown_at(alloc, inner)?;
    let Some(field) = inner.get_str("FIELD") else {
        return Ok(None);
    };
    Ok(Some(Words::Field {
        field,
        check: inner.get_flag(CHECK),
        once: inner.get_flag(ONCE),
        stop: inner.get_flag(STOP),
        status,
    }))
}

/// What is sent to a console: the commands of a file, or a change of the program.
fn asked<'a>(alloc: Global, inner: &ArgMatches<'a>) -> Result<Option<Words<'a>>, WordsError>
    ensures { IfOk result (λ form. IfSome form IsLostAfterAMinute) }
{
    let (Some(word), Some(timeout)) = (inner.get_str("CONSOLE"), inner.get_one::<u32>(TIMEOUT))
    else {
        return Ok(None);
    };
    match place_of(word) {
        Some(place) => {
            let key = inner.get_str(CONSOLE_KEY);
            let console = AskedConsole {
                place,
                timeout,
                key,
            };
            Ok(sent(inner, console))
        }
        None => Err(WordsError::Bad(String::from_str(alloc, NO_CONSOLE)?)),
    }
}

/// What is sent to this console.
fn sent<'a>(inner: &ArgMatches<'a>, console: AskedConsole<'a>) -> Option<Words<'a>>
    ensures { IfSome result IsLostAfterAMinute }
{
    match inner.get_str(CHANGE) {
        Some(source) => Some(Words::Change { console, source }),
        None => Some(Words::Ask {
            console,
            commands: inner.get_str("COMMANDS")?,
        }),
    }
}
