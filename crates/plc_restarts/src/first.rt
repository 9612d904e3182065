//! The first command behind an outage.

ghost use Rattle.std.specs.Prelude.{◌≡◌, IsTrue, ◌↔◌, MatchOption};
ghost use Rattle.plc_restarts.specs.Outages.{IsFirst, IsRestart, IsRestarted, Makes};
ghost use Rattle.plc_restarts.specs.declared.outage.LastScan.TheVariants.{NoScan};
ghost use Rattle.plc_restarts.specs.declared.restart.Restart.TheVariants.{Hot};

use crate::outage::{Clocks, LastScan, is_young};
use crate::restart::{Restart, Restarts};
use il_model::Command;

/// The command that makes a restart of this kind.
fn command_of(kind: Restart) -> Option<Command>
    ensures { MatchOption result (kind ≡ Hot) (λ command. Makes kind command) }
{
    match kind {
        Restart::Hot => None,
        Restart::Warm => Some(Command::Warm),
        Restart::Cold => Some(Command::Reset),
    }
}

/// Whether this command made a restart of this kind.
fn is_restart(kind: Restart, command: &Command) -> bool
    ensures { IsTrue result ↔ IsRestart kind command.now }
{
    match (kind, command) {
        (Restart::Warm, Command::Warm) => true,
        (Restart::Warm | Restart::Cold, Command::Reset) => true,
        _ => false,
    }
}

/// Whether one of these commands made a restart of this kind.
fn is_restarted(kind: Restart, behind: &[Command]) -> bool
    ensures { IsTrue result ↔ IsRestarted kind behind.now }
{
    behind.iter().any(|command| is_restart(kind, command))
}

/// Whether the controller never scanned.
fn has_no_scan(last: LastScan) -> bool
    ensures { IsTrue result ↔ (last ≡ NoScan) }
{
    matches!(last, LastScan::NoScan)
}

/// The first command of a machine that begins to lead, if one is due before the controller goes on. `behind`: the
/// commands that stand in its log behind the last scan, in order.
#[tactic(auto, using(crate::proofs::Choosing::first_of))]
pub fn first_command(
    wanted: Restarts,
    last: LastScan,
    now: Clocks,
    behind: &[Command],
) -> Option<Command>
    ensures { IsFirst wanted last now behind.now result }
{
    if has_no_scan(last) {
        return None;
    }
    if is_young(wanted.hot_within, last, now) {
        return None;
    }
    if is_restarted(wanted.kind, behind) {
        return None;
    }
    command_of(wanted.kind)
}
