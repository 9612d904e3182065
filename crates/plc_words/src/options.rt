//! The options of the commands: their words, and what each takes.

use crate::form::{Form, Kind};

/// The word of the option `--budget`.
pub(crate) const BUDGET: &str = "budget";

/// The word of the option `--f`.
pub(crate) const FAILURES: &str = "f";

/// The word of the option `--every`.
pub(crate) const EVERY: &str = "every";

/// The word of the option `--store`.
pub(crate) const STORE: &str = "store";

/// The word of the option `--scans`.
pub(crate) const SCANS: &str = "scans";

/// The word of the option `--port`.
pub(crate) const PORT: &str = "port";

/// The word of the option `--read-port`.
pub(crate) const READ_PORT: &str = "read-port";

/// The word of the option `--modbus-allow`.
pub(crate) const MODBUS_ALLOW: &str = "modbus-allow";

/// The word of the option `--modbus-read-only`.
pub(crate) const MODBUS_READ_ONLY: &str = "modbus-read-only";

/// The word of the option `--links`, and its values.
pub(crate) const LINKS: &str = "links";

pub(crate) const TCP: &str = "tcp";

const KINDS_OF_LINKS: &[&str] = &["channel", TCP];

/// The word of the option `--period`.
pub(crate) const PERIOD: &str = "period";

/// The word of the option `--idle`.
pub(crate) const IDLE: &str = "idle";

/// The word of the option `--crash`.
pub(crate) const CRASH: &str = "crash";

/// The word of the option `--report`.
pub(crate) const REPORT: &str = "report";

/// The word of the option `--console`.
pub(crate) const CONSOLE: &str = "console";

/// The word of the option `--console-socket`.
pub(crate) const CONSOLE_SOCKET: &str = "console-socket";

/// The word of the option `--console-key`.
pub(crate) const CONSOLE_KEY: &str = "console-key";

/// The word of the option `--change`.
pub(crate) const CHANGE: &str = "change";

/// The word of the option `--timeout`.
pub(crate) const TIMEOUT: &str = "timeout";

/// The word of the option `--image`.
pub(crate) const IMAGE: &str = "image";

/// The word of the option `--status`.
pub(crate) const STATUS: &str = "status";

/// The word of the option `--stale`.
pub(crate) const STALE: &str = "stale";

/// The word of the option `--group`.
pub(crate) const GROUP: &str = "group";

/// The word of the option `--trace`.
pub(crate) const TRACE: &str = "trace";

/// The word of the option `--machine`.
pub(crate) const MACHINE: &str = "machine";

/// The word of the option `--wait`.
pub(crate) const WAIT: &str = "wait";

/// The word of the option `--new-group`.
pub(crate) const NEW_GROUP: &str = "new-group";

/// The word of the option `--new-key`.
pub(crate) const NEW_KEY: &str = "new-key";

/// The word of the option `--next-epoch`.
pub(crate) const NEXT_EPOCH: &str = "next-epoch";

/// The word of the option `--epoch`.
pub(crate) const EPOCH: &str = "epoch";

/// The word of the option `--changed`.
pub(crate) const CHANGED: &str = "changed";

/// The word of the option `--forget`.
pub(crate) const FORGET: &str = "forget";

/// The word of the option `--position`.
pub(crate) const POSITION: &str = "position";

/// The word of a place in a text.
pub(crate) const PLACE: &str = "AT";

/// The word of the option `--listing`.
pub(crate) const LISTED: &str = "listing";

/// What a group's file has for its machines, or they haven't.
const SETTINGS: &[&str] = &[
    SCANS,
    FAILURES,
    EVERY,
    PORT,
    PERIOD,
    IDLE,
    BUDGET,
    LINKS,
    CRASH,
    REPORT,
    CONSOLE,
    CONSOLE_SOCKET,
    CONSOLE_KEY,
    STALE,
    STATUS,
    MODBUS_ALLOW,
    MODBUS_READ_ONLY,
    READ_PORT,
];

/// The word of a store's directory.
pub(crate) const DIRECTORY: &str = "DIR";

/// The word of the option `--check`.
pub(crate) const CHECK: &str = "check";

/// The word of the option `--once`.
pub(crate) const ONCE: &str = "once";

/// The word of the option `--stop`.
pub(crate) const STOP: &str = "stop";

/// By one of these something else than a new store is made.
const NO_NEW_STORE: &[&str] = &[NEW_GROUP, NEW_KEY, NEXT_EPOCH, EPOCH];

/// Beside one of these no store is put into another epoch.
const NO_EPOCH: &[&str] = &[NEW_GROUP, NEW_KEY, MACHINE, WAIT];

/// Beside one of these no store is put into the next epoch.
const NO_NEXT_EPOCH: &[&str] = &[NEW_GROUP, NEW_KEY, EPOCH];

/// Beside one of these an epoch begins with no changed program.
const NO_CHANGED: &[&str] = &[NEW_GROUP, NEW_KEY, MACHINE, WAIT, SOURCE];

/// By one of these no store is made or looked for.
const NO_STORE: &[&str] = &[NEW_GROUP, NEW_KEY];

/// Beside one of these no other `plc field` is asked to end.
const NO_STOP: &[&str] = &[CHECK, ONCE];

/// Beside one of these nothing is carried without an end.
const NO_STATUS: &[&str] = &[CHECK, ONCE, STOP];

/// The text of a program, by its place.
pub(crate) const SOURCE: &str = "SOURCE";

/// The schedule of replicas, by its place.
pub(crate) const SCHEDULE: &str = "SCHEDULE";

/// The word of the option `--seed`.
pub(crate) const SEED: &str = "seed";

/// The word of the option `--hours`.
pub(crate) const HOURS: &str = "hours";

/// The word of the option `--faults`, and its values.
pub(crate) const FAULTS: &str = "faults";

const KINDS_OF_FAULTS: &[&str] = &[
    "none",
    "all",
    "crash",
    "power",
    "pause",
    "stop",
    "loss",
    "delay",
    "reorder",
    "cut",
    "one-way",
    "isolate",
    "disk-full",
    "disk-slow",
    "disk-read-only",
    "disk-lost",
];

/// The word of the option `--until`.
pub(crate) const UNTIL: &str = "until";

/// What a schedule has for its replicas, where a group's file has its own.
const OF_SCHEDULES: &[&str] = &[SCHEDULE, FAILURES, EVERY, BUDGET];

/// The greatest number of a port.
const MOST_PORT: i64 = 65_535;

/// The greatest number of 32 bits.
const MOST: i64 = 4_294_967_295;

/// The greatest number of a step: no run has so many.
const MOST_STEP: i64 = 1_000_000_000_000_000;

/// The most hours of a run: a year, in which clients can count their writes by two words.
const MOST_HOURS: i64 = 8_760;

/// A file by its place. It's wanted.
pub(crate) fn file(name: &'static str) -> Form {
    Form::new(name, Kind::File).wanted()
}

/// An option without a value.
pub(crate) fn flag(word: &'static str) -> Form {
    Form::new(word, Kind::Flag)
}

/// An option with a text, which is refused where it's given twice or empty.
pub(crate) fn text(word: &'static str, value: &'static str) -> Form {
    Form::new(word, Kind::Text(value))
}

/// An option with a number, which is refused where it's given twice, or is none from `least` to `most`.
fn number(word: &'static str, value: &'static str, least: i64, most: i64) -> Form {
    Form::new(word, Kind::Number(value, least, most))
}

/// An option with a number of 32 bits above 0.
pub(crate) fn count(word: &'static str, value: &'static str) -> Form {
    number(word, value, 1, MOST)
}

/// An option with the number of a port.
fn numbered_port(word: &'static str) -> Form {
    number(word, "P", 1, MOST_PORT)
}

/// A place is left out where all positions are asked for, and refused beside one of them.
pub(crate) fn place() -> Form {
    Form::new(PLACE, Kind::File)
        .help("A line, or a line and a column, as 13:5: the positions of what stands there")
        .refused_beside(&[POSITION])
}

pub(crate) fn position() -> Form {
    number(POSITION, "P", 0, 65_535).help("Of this position alone, counted from 0")
}

pub(crate) fn budget() -> Form {
    number(BUDGET, "B", 1, 1_000_000)
        .default_value("10000")
        .help("How many instructions a scan may perform, 1 to 1000000")
}

pub(crate) fn failures() -> Form {
    number(FAILURES, "F", 1, 3)
        .default_value("1")
        .help("How many of the 2F+1 replicas may fail, 1 to 3")
}

/// From `least` on. A controller that is served has to make checkpoints: without them its log, and so each message of a
/// view change, would grow without an end.
pub(crate) fn every(least: i64) -> Form {
    number(EVERY, "E", least, 65_535).default_value("64")
}

/// The directories of stores are wanted.
pub(crate) fn directory() -> Form {
    Form::new(STORE, Kind::Texts("DIR")).wanted().help(
        "The directory for the stores of the replicas; once, or for each of them",
    )
}

/// The text is wanted where no group is given, and refused where one is.
pub(crate) fn served_source() -> Form {
    Form::new(SOURCE, Kind::File)
        .help("The program's text, in Instruction List")
        .wanted_unless(&[GROUP])
        .refused_beside(&[GROUP])
}

/// The option is refused beside what the group's file has.
pub(crate) fn served_group() -> Form {
    text(GROUP, "GROUP")
        .help("The file of a group, in place of SOURCE: one machine of it is served")
        .refused_beside(SETTINGS)
}

/// The option is refused beside a text.
pub(crate) fn trace() -> Form {
    text(TRACE, "FILE")
        .help("Where what the machine releases is written, for trials")
        .refused_beside(&[SOURCE])
}

/// The text is wanted for a new store, and refused for a new group or a new key.
pub(crate) fn formatted_source() -> Form {
    Form::new(SOURCE, Kind::File)
        .help("The program's text, in Instruction List")
        .wanted_unless(NO_NEW_STORE)
        .refused_beside(NO_STORE)
}

/// The option is wanted for a new store, and refused for one that is there.
pub(crate) fn machine() -> Form {
    number(MACHINE, "I", 0, 6)
        .help("The machine's place in GROUP, counted from 0")
        .wanted_unless(NO_NEW_STORE)
        .refused_beside(NO_NEW_STORE)
}

/// The option is wanted but for a new key, and refused for that.
pub(crate) fn formatted_group() -> Form {
    text(GROUP, "GROUP")
        .help("The file of the group")
        .wanted_unless(&[NEW_KEY])
        .refused_beside(&[NEW_KEY])
}

/// The option is refused beside another one that says what is done.
pub(crate) fn new_key() -> Form {
    text(NEW_KEY, "FILE")
        .help("Draws a key for the machines of a group into FILE, which isn't there")
        .refused_beside(&[NEW_GROUP])
}

/// The option is wanted but for a new group or a new key, and refused for those.
pub(crate) fn made_store() -> Form {
    text(STORE, "DIR")
        .help("The directory of the store")
        .wanted_unless(NO_STORE)
        .refused_beside(NO_STORE)
}

/// The option is refused where a store is there already.
pub(crate) fn wait() -> Form {
    flag(WAIT)
        .help("The machine's disk was lost: it waits for an epoch of its group")
        .refused_beside(NO_NEW_STORE)
}

pub(crate) fn new_group() -> Form {
    flag(NEW_GROUP).help("Draws the identity of a new group into GROUP")
}

/// The option is refused beside another one that says what is done.
pub(crate) fn next_epoch() -> Form {
    flag(NEXT_EPOCH)
        .help("Puts the store that is there into the next epoch")
        .refused_beside(NO_NEXT_EPOCH)
}

/// The option is refused beside another one that says what is done.
pub(crate) fn epoch() -> Form {
    count(EPOCH, "N")
        .help("Puts the store that is there into epoch N: the same N at each machine, as 20261128")
        .refused_beside(NO_STORE)
}

/// The option is refused beside a text, and where no store is put into another epoch.
pub(crate) fn changed() -> Form {
    flag(CHANGED)
        .help("That epoch begins with the program to which the store's was changed")
        .refused_beside(NO_CHANGED)
}

/// The option is refused where no store is put into another epoch.
pub(crate) fn forget() -> Form {
    flag(FORGET)
        .help("What the group has in memory may be lost")
        .refused_beside(NO_EPOCH)
}

/// The option is refused where no listing is printed.
pub(crate) fn changed_listing() -> Form {
    flag(CHANGED)
        .help("Prints that of the program to which it was changed")
        .only_beside(LISTED)
}

/// The port of 127.0.0.1 for Modbus clients.
pub(crate) fn port() -> Form {
    numbered_port(PORT)
        .default_value("5020")
        .help("The port of 127.0.0.1, 1 to 65535")
}

/// Who may come to the ports for Modbus clients.
pub(crate) fn modbus_allow() -> Form {
    text(MODBUS_ALLOW, "LIST").help(
        "The addresses and networks of Modbus clients, as 10.0.0.5,10.1.0.0/16; without it, all",
    )
}

/// Who of them may only read.
pub(crate) fn modbus_read_only() -> Form {
    text(MODBUS_READ_ONLY, "LIST").help("Those of Modbus clients who may only read")
}

pub(crate) fn read_port() -> Form {
    numbered_port(READ_PORT).help("A further port for Modbus clients who only read, 1 to 65535")
}

/// The option is refused where it's given twice, or is none of its two words.
pub(crate) fn links() -> Form {
    Form::new(LINKS, Kind::OneOf("KIND", KINDS_OF_LINKS))
        .default_value(TCP)
        .help("How messages go from replica to replica")
}

/// The option is refused beside a socket.
pub(crate) fn console() -> Form {
    numbered_port(CONSOLE)
        .help("The port of an operator's console, 1 to 65535")
        .refused_beside(&[CONSOLE_SOCKET])
}

pub(crate) fn console_key() -> Form {
    text(CONSOLE_KEY, "FILE").help("The file of the word that the console asks for first")
}

/// So long a console that is asked may take.
pub(crate) fn timeout() -> Form {
    count(TIMEOUT, "S")
        .default_value("60")
        .help("Seconds until an answer is given up")
}

pub(crate) fn status() -> Form {
    text(STATUS, "[ADDR:]P").help(
        "The port of a page for browsers and of figures for Prometheus, 1 to 65535",
    )
}

/// The file of commands is left out where the program is to be changed.
pub(crate) fn asked_commands() -> Form {
    Form::new("COMMANDS", Kind::File)
        .help("The commands, in JSON; - is standard input")
        .wanted_unless(&[CHANGE])
        .refused_beside(&[CHANGE])
}

/// The option is refused where nothing is carried.
pub(crate) fn once() -> Form {
    flag(ONCE)
        .help("Ends once all was read and written, and prints that; status 1: something was lost")
        .refused_beside(&[CHECK])
}

/// The option is refused beside another one that says what is done.
pub(crate) fn stop() -> Form {
    flag(STOP)
        .help("Asks the plc field that runs FIELD to end, and waits until it has")
        .refused_beside(NO_STOP)
}

/// The option is refused where it isn't carried without an end.
pub(crate) fn field_status() -> Form {
    status().refused_beside(NO_STATUS)
}

/// The schedule is wanted where no group is given, and refused where one is.
pub(crate) fn schedule() -> Form {
    Form::new(SCHEDULE, Kind::File)
        .help("The schedule, in JSON")
        .wanted_unless(&[GROUP])
}

/// The option is refused beside what a schedule has, and wants a seed.
pub(crate) fn simulated_group() -> Form {
    text(GROUP, "GROUP")
        .help("The file of a group, in place of SCHEDULE: it runs by virtual time")
        .refused_beside(OF_SCHEDULES)
        .only_beside(SEED)
}

/// The option is refused where no group is run, so beside a schedule.
pub(crate) fn seed() -> Form {
    number(SEED, "S", 0, MOST)
        .help("By which all goes that comes by chance, 0 to 4294967295")
        .refused_beside(&[SCHEDULE])
        .only_beside(GROUP)
}

/// The option is refused where no group is run, so beside a schedule.
pub(crate) fn hours() -> Form {
    number(HOURS, "H", 1, MOST_HOURS)
        .default_value("1")
        .help("How many hours of virtual time, 1 to 8760")
        .refused_beside(&[SCHEDULE])
        .only_beside(GROUP)
}

/// The option is refused where no group is run, so beside a schedule.
pub(crate) fn faults() -> Form {
    Form::new(FAULTS, Kind::SomeOf("KIND", KINDS_OF_FAULTS))
        .help("A kind of faults that come; without it, none do")
        .refused_beside(&[SCHEDULE])
        .only_beside(GROUP)
}

/// The option is refused where no group is run, so beside a schedule.
pub(crate) fn until() -> Form {
    number(UNTIL, "N", 1, MOST_STEP)
        .help("Ends the run behind step N, 1 to 1000000000000000")
        .refused_beside(&[SCHEDULE])
        .only_beside(GROUP)
}

/// The option is refused where no group is run, so beside a schedule.
pub(crate) fn told() -> Form {
    flag(TRACE)
        .help("Prints what happens, a line each")
        .refused_beside(&[SCHEDULE])
        .only_beside(GROUP)
}
