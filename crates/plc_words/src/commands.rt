//! The commands of the program, with their arguments.

use crate::form::{Form, arg};
use crate::forms::VERSION;
use crate::help;
use crate::options::{
    CHANGE, CHECK, CONSOLE_SOCKET, CRASH, DIRECTORY, IDLE, IMAGE, LISTED, PERIOD, REPORT, SCANS,
    SOURCE, STALE, asked_commands, budget, changed, changed_listing, console, console_key, count,
    directory, epoch, every, failures, faults, field_status, file, flag, forget, formatted_group,
    formatted_source, hours, links, machine, made_store, modbus_allow, modbus_read_only, new_group,
    new_key, next_epoch, once, place, port, position, read_port, schedule, seed, served_group,
    served_source, simulated_group, status, stop, text, timeout, told, trace, until, wait,
};
use clap::{Arg, Command};
use std::alloc::{AllocError, Global};

/// A command of the program.
#[derive(Clone, Copy)]
enum Named {
    Asm,
    List,
    Names,
    Diff,
    Where,
    Run,
    Sim,
    Format,
    Show,
    Serve,
    Ask,
    Fetch,
    Field,
}

/// All commands, in the order in which help has them.
const ALL: [Named; 13] = [
    Named::Asm,
    Named::List,
    Named::Names,
    Named::Diff,
    Named::Where,
    Named::Run,
    Named::Sim,
    Named::Format,
    Named::Show,
    Named::Serve,
    Named::Ask,
    Named::Fetch,
    Named::Field,
];

/// The program's own words, and its commands.
pub(crate) fn program<'a>(alloc: Global) -> Result<Command<'a>, AllocError> {
    let commands = commands(alloc)?;
    Command::new(alloc, "plc")
        .version(VERSION)
        .about("A programmable controller for Instruction List (IEC 61131-3)")
        .after_help(help::STATUSES)
        .arg_required_else_help(true)
        .subcommand_required(true)
        .subcommands(commands)?
        .bin_name("plc")
}

fn commands<'a>(alloc: Global) -> Result<Vec<Command<'a>>, AllocError> {
    let mut commands = Vec::new(alloc);
    let put = put_commands(alloc, &mut commands);
    kept(commands, put)
}

/// A value, once what had to be done to it is done. Its type is a parameter: so what is checked of a `?` beside it says
/// nothing of its parts.
fn kept<T: Drop>(value: T, done: Result<(), AllocError>) -> Result<T, AllocError> {
    done?;
    Ok(value)
}

fn put_commands<'a>(alloc: Global, commands: &mut Vec<Command<'a>>) -> Result<(), AllocError> {
    for named in ALL {
        commands.push(command(alloc, named)?)?;
    }
    Ok(())
}

/// A command with its arguments, in the order in which help has them.
fn command<'a>(alloc: Global, named: Named) -> Result<Command<'a>, AllocError> {
    let args = args_of(alloc, named)?;
    Command::new(alloc, word_of(named))
        .about(about(named))
        .after_help(help_of(named))
        .args(args)
}

fn word_of<'a>(named: Named) -> &'a str {
    match named {
        Named::Asm => "asm",
        Named::List => "list",
        Named::Names => "names",
        Named::Diff => "diff",
        Named::Where => "where",
        Named::Run => "run",
        Named::Sim => "sim",
        Named::Format => "format",
        Named::Show => "show",
        Named::Serve => "serve",
        Named::Ask => "ask",
        Named::Fetch => "fetch",
        Named::Field => "field",
    }
}

fn about<'a>(named: Named) -> &'a str {
    match named {
        Named::Asm => "Assembles a program, and writes its image to a file",
        Named::List => "Prints the listing of an image",
        Named::Names => "Prints a program's names with their places and Modbus addresses, as CSV",
        Named::Diff =>
            "Prints whether two programs are the same, and what goes on by its name from one to the other",
        Named::Where =>
            "Prints at which line and in which instance the instruction of a position stands",
        Named::Run => "Runs a program over a file of commands, and prints one answer a line",
        Named::Sim =>
            "Runs a schedule over replicas of a program, and prints a report; or a group by virtual time",
        Named::Format =>
            "Makes a group, or the store of one machine of it, or puts that into another epoch",
        Named::Show => "Prints what the store of a machine has",
        Named::Serve =>
            "Runs a program on replicas in threads, and serves it to Modbus clients; or one machine of a group",
        Named::Ask => "Sends commands, or another program, to the console of a served controller",
        Named::Fetch => "Writes the program of a served controller, or of a store, to a file",
        Named::Field => "Carries inputs and outputs between Modbus devices and a served controller",
    }
}

fn help_of<'a>(named: Named) -> &'a str {
    match named {
        Named::Asm => help::ASSEMBLY,
        Named::List => help::LISTING,
        Named::Names => help::NAMES,
        Named::Diff => help::DIFFERENCE,
        Named::Where => help::PLACES,
        Named::Run => help::COMMANDS,
        Named::Sim => help::SCHEDULE,
        Named::Format => help::FORMATTING,
        Named::Show => help::SHOWING,
        Named::Serve => help::SERVING,
        Named::Ask => help::ASKING,
        Named::Fetch => help::FETCHING,
        Named::Field => help::FIELD,
    }
}

/// The arguments of a command, in the order in which help has them.
fn args_of<'a>(alloc: Global, named: Named) -> Result<Vec<Arg<'a>>, AllocError> {
    let mut args = Vec::new(alloc);
    let put = put_args(alloc, named, &mut args);
    kept(args, put)
}

fn put_args<'a>(alloc: Global, named: Named, args: &mut Vec<Arg<'a>>) -> Result<(), AllocError> {
    match named {
        Named::Asm => put_all(alloc, args, &asm_forms()),
        Named::List => put_all(alloc, args, &list_forms()),
        Named::Names => put_all(alloc, args, &[source()]),
        Named::Diff => put_all(alloc, args, &diff_forms()),
        Named::Where => put_all(alloc, args, &where_forms()),
        Named::Run => put_all(alloc, args, &run_forms()),
        Named::Sim => put_all(alloc, args, &sim_forms()),
        Named::Format => put_all(alloc, args, &format_forms()),
        Named::Show => put_all(alloc, args, &show_forms()),
        Named::Serve => put_served(alloc, args),
        Named::Ask => put_all(alloc, args, &ask_forms()),
        Named::Fetch => put_all(alloc, args, &fetch_forms()),
        Named::Field => put_all(alloc, args, &field_forms()),
    }
}

/// Puts arguments of these forms.
fn put_all<'a>(alloc: Global, args: &mut Vec<Arg<'a>>, forms: &[Form]) -> Result<(), AllocError> {
    for form in forms {
        args.push(arg(alloc, form)?)?;
    }
    Ok(())
}

/// The text of a program.
fn source() -> Form {
    file(SOURCE).help("The program's text, in Instruction List")
}

fn asm_forms() -> [Form; 2] {
    [source(), file("IMAGE").help("The file for the image")]
}

fn list_forms() -> [Form; 1] {
    [file("IMAGE").help("The image, as asm writes it")]
}

fn diff_forms() -> [Form; 4] {
    [
        file("OLD").help("The program that runs: its text, a console, or a store"),
        file("NEW").help("The program to go on with, likewise"),
        console_key(),
        timeout(),
    ]
}

fn where_forms() -> [Form; 3] {
    [source(), place(), position()]
}

fn run_forms() -> [Form; 3] {
    let commands = file("COMMANDS").help("The commands, in JSON");
    [source(), commands, budget()]
}

fn sim_forms() -> [Form; 11] {
    [
        source(),
        schedule(),
        failures(),
        every(0).help(
            "After how many commands a replica makes a checkpoint, 0 to 65535; 0 is never",
        ),
        budget(),
        simulated_group(),
        seed(),
        hours(),
        faults(),
        until(),
        told(),
    ]
}

/// For a new store; and then for a new group or a new key, and for a store that is put into another epoch.
fn format_forms() -> [Form; 11] {
    [
        formatted_source(),
        formatted_group(),
        machine(),
        made_store(),
        wait(),
        new_group(),
        new_key(),
        next_epoch(),
        epoch(),
        changed(),
        forget(),
    ]
}

fn show_forms() -> [Form; 3] {
    [
        file(DIRECTORY).help("The directory of the store"),
        flag(LISTED).help("Prints the listing of the store's program"),
        changed_listing(),
    ]
}

fn put_served<'a>(alloc: Global, args: &mut Vec<Arg<'a>>) -> Result<(), AllocError> {
    put_all(alloc, args, &served_forms())?;
    put_all(alloc, args, &scan_forms())?;
    put_all(alloc, args, &client_forms())?;
    put_all(alloc, args, &door_forms())
}

/// What is served, and where its stores are.
fn served_forms() -> [Form; 4] {
    [served_source(), served_group(), trace(), directory()]
}

/// How it's served.
fn scan_forms() -> [Form; 10] {
    [
        count(SCANS, "N").help(
            "After how many scans it ends; without it, it goes on until it's interrupted",
        ),
        failures(),
        every(1).help("After how many commands a replica makes a checkpoint, 1 to 65535"),
        port(),
        count(PERIOD, "MS")
            .default_value("100")
            .help("Milliseconds from scan to scan"),
        count(IDLE, "S").default_value("300").help(
            "Seconds until a client without a whole request is disconnected",
        ),
        budget(),
        links(),
        count(CRASH, "K").help("Crashes a replica after every K scans, and restarts it"),
        text(REPORT, "FILE").help("The file for a report at the end"),
    ]
}

/// Which Modbus clients may come, and what they may do.
fn client_forms() -> [Form; 3] {
    [modbus_allow(), modbus_read_only(), read_port()]
}

/// How operators come to it, and what is shown of it.
fn door_forms() -> [Form; 5] {
    [
        console(),
        text(CONSOLE_SOCKET, "PATH").help(
            "The socket of an operator's console, in place of a port",
        ),
        console_key(),
        count(STALE, "MS").help(
            "Milliseconds until outputs aren't shown any more; without it they always are",
        ),
        status(),
    ]
}

fn ask_forms() -> [Form; 5] {
    [
        file("CONSOLE").help(
            "Its port of 127.0.0.1, its address with a port, or its socket's path",
        ),
        asked_commands(),
        text(CHANGE, SOURCE).help("The text of the program to go on with, in place of COMMANDS"),
        console_key(),
        timeout(),
    ]
}

/// From where a program is fetched, and to where.
fn fetch_forms() -> [Form; 5] {
    [
        file("FROM").help("The console of what runs it, the directory of a store, or its text"),
        file("FILE").help("The file for the listing; - is standard output"),
        flag(IMAGE).help("Writes the image, as asm does, in place of the listing"),
        console_key(),
        timeout(),
    ]
}

/// What is carried, and how far.
fn field_forms() -> [Form; 5] {
    [
        file("FIELD").help("The devices, and what goes where"),
        flag(CHECK).help("Prints what goes where, and connects to nothing"),
        once(),
        stop(),
        field_status(),
    ]
}
