//! The scans in a log.

ghost use Rattle.std.specs.Prelude.{◌≡◌};
ghost use Rattle.vr_model.specs.Checkpoints.{requests_of};
ghost use Rattle.vr_replica.specs.Scans as scans;

use il_model::{Command, InImage};
use vr_model::Request;

/// What a Scan was submitted with: its inputs, and its moment in milliseconds.
#[derive(Clone, Copy, Debug, PartialEq, Eq)]
pub struct ScanInputs {
    pub inputs: InImage,
    pub moment: u64,
}

/// What a command was submitted with, if it is a Scan.
fn scan_in(command: &Command) -> Option<ScanInputs>
    ensures { result ≡ scans.scan_in command.now }
{
    match command {
        Command::Scan { inputs, moment } => Some(ScanInputs {
            inputs: *inputs,
            moment: *moment,
        }),
        _ => None,
    }
}

/// What the last Scan among some entries was submitted with, if there is one.
pub(crate) fn last_scan(entries: &[Request]) -> Option<ScanInputs>
    ensures { result ≡ scans.last_scan_of (requests_of entries.now) }
{
    let mut n = entries.len();
    while n > 0 {
        n -= 1;
        let scan = scan_in(&entries[n].command);
        if scan.is_some() {
            return scan;
        }
    }
    None
}
