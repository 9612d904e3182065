//! What the words of a call ask for, as lines.

use net_addresses::Networks;
use plc_settings::{ModbusClients, Settings};
use plc_words::{AskedConsole, Fetching, OperatorsAt, Words, read_words};
use std::alloc::{AllocError, Global};

/// What the words of a line ask for; `no call` where they ask for nothing.
pub fn asked(alloc: Global, line: &str) -> Result<String, AllocError> {
    let mut words = Vec::new(alloc);
    for word in line.split_whitespace() {
        words.push(word)?;
    }
    match read_words(alloc, words.as_slice()) {
        Ok(words) => shown(alloc, &words),
        Err(_) => String::from_str(alloc, "no call"),
    }
}

fn shown(alloc: Global, words: &Words) -> Result<String, AllocError> {
    match words {
        Words::Serve {
            source,
            stores,
            report,
            settings,
            operators,
            clients,
        } => {
            let settings = service(alloc, settings, operators)?;
            let clients = guests(alloc, clients)?;
            format!(in alloc;
                "serve {source}, stores {stores:?}, report {report:?}\n{settings}{clients}"
            )
        }
        Words::SimGroup {
            source,
            group,
            seed,
            hours,
            faults,
            until,
            is_traced,
        } => format!(in alloc;
            "sim {source} by {group}, seed {seed}, hours {hours}\nfaults {faults:?}, until {until:?}, traced {is_traced}"
        ),
        _ => of_another(alloc, words),
    }
}

/// A call that is no service of its own replicas.
fn of_another(alloc: Global, words: &Words) -> Result<String, AllocError> {
    match *words {
        Words::ServeMachine {
            group,
            directory,
            trace,
        } => format!(in alloc; "serve a machine of {group}, store {directory}, trace {trace:?}"),
        Words::Ask { console, commands } => asking(alloc, "ask", commands, &console),
        Words::Change { console, source } => asking(alloc, "change to", source, &console),
        Words::Field {
            field,
            check,
            once,
            stop,
            status,
        } => format!(in alloc;
            "field {field}, check {check}, once {once}, stop {stop}, status {status:?}"
        ),
        _ => of_files(alloc, words),
    }
}

/// How it's served, and how operators come to it.
fn service(
    alloc: Global,
    settings: &Settings,
    operators: &OperatorsAt,
) -> Result<String, AllocError> {
    let Settings {
        config,
        budget,
        port,
        period,
        scans,
        idle,
        links,
        crash,
        lost_after,
        console,
        stale,
        status,
    } = settings;
    let (f, every, budget) = (config.f, config.every, budget.instructions);
    let (socket, key) = (operators.socket, operators.key);
    format!(in alloc;
        "f {f}, every {every}, budget {budget}, links {links:?}, port {port}, period {period}, idle {idle}\n\
         scans {scans:?}, crash {crash:?}, lost after {lost_after}, stale {stale:?}\n\
         console {console:?}, socket {socket:?}, key {key:?}, status {status:?}"
    )
}

/// Who may come as a Modbus client, where that's not everybody.
fn guests(alloc: Global, clients: &ModbusClients) -> Result<String, AllocError> {
    let allowed = networks(alloc, &clients.clients.allowed)?;
    let readers = networks(alloc, &clients.clients.readers)?;
    let reading = clients.reading;
    if allowed.is_empty() && readers.is_empty() && reading.is_none() {
        return Ok(String::new(alloc));
    }
    format!(in alloc; "\nallowed {allowed}, readers {readers}, reading port {reading:?}")
}

/// A list of networks.
fn networks(alloc: Global, list: &Option<Networks>) -> Result<String, AllocError> {
    let mut text = String::new(alloc);
    if let Some(list) = list {
        for network in list.networks.iter() {
            let (address, prefix) = (network.address, network.prefix);
            let one = format!(in alloc; "[{address}/{prefix}]")?;
            text.push_str(one.as_str())?;
        }
    }
    Ok(text)
}

/// What is sent to a console, and where that is.
fn asking(
    alloc: Global,
    what: &str,
    file: &str,
    console: &AskedConsole,
) -> Result<String, AllocError> {
    let AskedConsole {
        place,
        timeout,
        key,
    } = console;
    format!(in alloc; "{what} {file} at {place:?}, timeout {timeout}, key {key:?}")
}

/// A call that works on files and ends.
fn of_files(alloc: Global, words: &Words) -> Result<String, AllocError> {
    match *words {
        Words::Asm { source, image } => format!(in alloc; "asm {source}, image {image}"),
        Words::List { image } => format!(in alloc; "list {image}"),
        Words::Names { source } => format!(in alloc; "names {source}"),
        Words::Diff { old, new, fetching } => {
            let Fetching { timeout, key } = fetching;
            format!(in alloc; "diff {old:?}, new {new:?}, timeout {timeout}, key {key:?}")
        }
        Words::Fetch {
            origin,
            fetching,
            file,
            is_image,
        } => {
            let Fetching { timeout, key } = fetching;
            format!(in alloc;
                "fetch {origin:?} to {file}, image {is_image}, timeout {timeout}, key {key:?}"
            )
        }
        Words::Where { source, asked } => format!(in alloc; "where {source}, {asked:?}"),
        Words::Run {
            source,
            commands,
            budget,
        } => {
            let budget = budget.instructions;
            format!(in alloc; "run {source}, commands {commands}, budget {budget}")
        }
        Words::Sim {
            source,
            schedule,
            config,
            budget,
        } => {
            let (f, every, budget) = (config.f, config.every, budget.instructions);
            format!(in alloc;
                "sim {source}, schedule {schedule}, f {f}, every {every}, budget {budget}"
            )
        }
        _ => of_a_store(alloc, words),
    }
}

/// A call that makes a group or a store, or shows or changes one.
fn of_a_store(alloc: Global, words: &Words) -> Result<String, AllocError> {
    match *words {
        Words::Format {
            source,
            group,
            machine,
            waits,
            directory,
        } => format!(in alloc;
            "format {directory}, program {source}, group {group}, machine {machine}, waits {waits}"
        ),
        Words::NewGroup { group } => format!(in alloc; "new group {group}"),
        Words::NewKey { path } => format!(in alloc; "new key {path}"),
        Words::EnterEpoch {
            group,
            epoch,
            program,
            forgets,
            directory,
        } => format!(in alloc;
            "epoch {epoch:?} of {directory}, group {group}, program {program:?}, forgets {forgets}"
        ),
        Words::Show { directory } => format!(in alloc; "show {directory}"),
        Words::Listing {
            is_changed,
            directory,
        } => format!(in alloc; "listing of {directory}, changed {is_changed}"),
        _ => String::from_str(alloc, "another call"),
    }
}
