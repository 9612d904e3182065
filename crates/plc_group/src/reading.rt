//! The group of a file.

ghost use Rattle.std.specs.Prelude.{◌≡◌, ◌≤◌, ◌+◌, ◌/◌, [], IfErr, IfOk, take};
ghost use Rattle.toml.specs.Data.{Members};
ghost use Rattle.toml.specs.Errors.{IsMemory, IsWithin, span_start};
ghost use Rattle.toml.specs.View.{table_view};
ghost use Rattle.plc_group.specs.declared.fault.GroupFault.TheVariants.{Memory, Toml};
ghost use Rattle.plc_group.specs.Lines.{column_behind, line_behind};
ghost use Rattle.plc_group.specs.Faults.{IsFileFault, IsTable, Judges, faults_of, fresh_faults, resend_faults};
ghost use Rattle.plc_group.specs.Faults.{clients_faults, settings_faults, times_faults};
ghost use Rattle.plc_group.specs.Said.{Says, SaysClients, SaysSettings, SaysTimes};
ghost use Rattle.plc_group.specs.Values.{number_or, usual_resend};
ghost use Rattle.plc_group.specs.declared.key.TheConstants.{FRESHNESSES, RESENDS};

use crate::fault::{GroupFault, Why};
use crate::fields::{
    cold_start, console_key, console_sockets, identity, insecure, key_file, name, networks, number,
    refuse_unknown, wrong,
};
use crate::group::{ColdStart, Group, Times};
use crate::key::{
    BUDGETS, DISTANCES, FRESHNESSES, GROUP_KEYS, IDLES, Key, PATIENCES, PERIODS, RESENDS,
};
use crate::machines::{machines, refuse_exposed, refuse_ports};
use il_model::Budget;
use net_addresses::Clients;
use std::alloc::Global;
use toml::Table;
use vr_model::Config;

/// In milliseconds: by default outputs are shown for so long beyond a period.
const MARGIN: u32 = 40;

/// In milliseconds: for so long beyond a period they're shown at least.
const LEAST_MARGIN: u32 = 20;

/// What may have been lost is sent again within this part of the patience.
const PART: u32 = 5;

/// In milliseconds: by default it's sent again behind so long, where the patience allows that.
const RESEND: u32 = 20;

/// The group of a file of these bytes: TOML 1.1 in UTF-8. It's given exactly where its table has no fault; else the
/// first fault is, and nothing else happened.
pub fn read_group(alloc: Global, bytes: &[u8]) -> Result<Group, GroupFault>
    ensures found { IfOk result (λ group. (members : Members) × IsTable bytes.now members
        × (faults_of members ≡ []) × Says members group) }
    ensures refused { IfErr result (IsFileFault bytes.now) }
{
    match toml::table_from_slice(alloc, bytes) {
        Ok(table) => group_of(alloc, &table),
        Err(error) => Err(no_table(bytes, &error)),
    }
}

/// Why bytes are no table.
fn no_table(bytes: &[u8], error: &toml::de::Error) -> GroupFault
    requires { IsWithin bytes.now error.now }
    ensures memory { IsMemory error.now → result ≡ Memory }
    ensures place { ¬ IsMemory error.now → let before = take (span_start error.now) bytes.now in
        result ≡ Toml (line_behind before) (column_behind before) }
{
    match error.span() {
        Some(span) => place_behind(&bytes[..span.start]),
        None => GroupFault::Memory,
    }
}

/// The line and the column of what stands behind these bytes, each from 1; a column counts bytes.
fn place_behind(before: &[u8]) -> GroupFault
    ensures { result ≡ Toml (line_behind before.now) (column_behind before.now) }
{
    let mut line = 1usize;
    let mut column = 1usize;
    for byte in before {
        if *byte == b'\n' {
            line += 1;
            column = 1;
        } else {
            column += 1;
        }
    }
    GroupFault::Toml { line, column }
}

fn group_of(alloc: Global, table: &Table) -> Result<Group, GroupFault>
    ensures { Judges (faults_of (table_view table.now)) (Says (table_view table.now)) result }
{
    refuse_unknown(alloc, table, GROUP_KEYS.as_slice(), None)?;
    let settings = settings_of(alloc, table)?;
    let machines = machines(alloc, table)?;
    refuse_ports(&settings.console_sockets, machines.as_slice())?;
    let may_be_exposed = settings.key_file.is_some() || settings.is_insecure;
    refuse_exposed(may_be_exposed, machines.as_slice())?;
    let identity = identity(table)?;
    Ok(Group {
        name: settings.name,
        identity,
        config: Config {
            f: ((machines.len() - 1) / 2) as u8,
            every: settings.every,
        },
        budget: settings.budget,
        period: settings.period,
        times: settings.times,
        cold_start: settings.cold_start,
        console_key: settings.console_key,
        console_sockets: settings.console_sockets,
        key_file: settings.key_file,
        is_insecure: settings.is_insecure,
        clients: settings.clients,
        machines,
    })
}

/// What the file says of the whole group.
#[derive(Drop)]
pub(crate) struct Settings {
    pub(crate) name: String,
    pub(crate) period: u32,
    pub(crate) budget: Budget,
    pub(crate) every: u16,
    pub(crate) times: Times,
    pub(crate) cold_start: ColdStart,
    pub(crate) console_key: Option<String>,
    pub(crate) console_sockets: Option<String>,
    pub(crate) key_file: Option<String>,
    pub(crate) is_insecure: bool,
    pub(crate) clients: Clients,
}

fn settings_of(alloc: Global, table: &Table) -> Result<Settings, GroupFault>
    ensures { Judges (settings_faults (table_view table.now)) (SaysSettings (table_view table.now)) result }
{
    let name = name(alloc, table)?;
    let period = number(table, Key::Period, PERIODS, 100)?;
    let instructions = number(table, Key::Budget, BUDGETS, 10_000)?;
    let every = number(table, Key::Every, DISTANCES, 64)?;
    let times = times(table, period)?;
    let cold_start = cold_start(table)?;
    let console_key = console_key(alloc, table)?;
    let console_sockets = console_sockets(alloc, table)?;
    let key_file = key_file(alloc, table)?;
    let is_insecure = insecure(table)?;
    let clients = clients(alloc, table)?;
    Ok(Settings {
        name,
        period,
        budget: Budget { instructions },
        every: every as u16,
        times,
        cold_start,
        console_key,
        console_sockets,
        key_file,
        is_insecure,
        clients,
    })
}

/// Who may be a Modbus client, by a table.
fn clients(alloc: Global, table: &Table) -> Result<Clients, GroupFault>
    ensures { Judges (clients_faults (table_view table.now)) (SaysClients (table_view table.now)) result }
{
    Ok(Clients {
        allowed: networks(alloc, table, Key::ModbusAllow)?,
        readers: networks(alloc, table, Key::ModbusReadOnly)?,
    })
}

/// The times of a table with this period.
fn times(table: &Table, period: u32) -> Result<Times, GroupFault>
    requires { period ≤ 3600000 }
    ensures { Judges (times_faults period (table_view table.now)) (SaysTimes (table_view table.now) period) result }
{
    let patience = number(table, Key::Patience, PATIENCES, 100)?;
    Ok(Times {
        patience,
        resend: resend(table, patience)?,
        fresh: fresh(table, period)?,
        idle: number(table, Key::Idle, IDLES, 300)?,
    })
}

/// When what may have been lost is sent again, by a table with this patience.
fn resend(table: &Table, patience: u32) -> Result<u32, GroupFault>
    ensures { Judges (resend_faults patience (table_view table.now))
        (λ n. n ≡ number_or (usual_resend patience) RESENDS Key.Resend (table_view table.now)) result }
{
    let resend = number(table, Key::Resend, RESENDS, usual_resend(patience))?;
    if resend > patience / PART {
        return Err(wrong(None, Key::Resend, Why::AbovePatience));
    }
    Ok(resend)
}

/// When that is where nothing is said.
fn usual_resend(patience: u32) -> u32
    ensures { result ≡ usual_resend patience }
{
    if patience / PART < RESEND {
        patience / PART
    } else {
        RESEND
    }
}

/// For how long outputs are shown, by a table with this period.
fn fresh(table: &Table, period: u32) -> Result<u32, GroupFault>
    requires { period ≤ 3600000 }
    ensures { Judges (fresh_faults period (table_view table.now))
        (λ n. n ≡ number_or (period + 40) FRESHNESSES Key.Fresh (table_view table.now)) result }
{
    let fresh = number(table, Key::Fresh, FRESHNESSES, period + MARGIN)?;
    if fresh < period + LEAST_MARGIN {
        return Err(wrong(None, Key::Fresh, Why::BelowPeriod));
    }
    Ok(fresh)
}
