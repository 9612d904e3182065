//! What is promised of a log, whoever leads.

ghost use Rattle.plc_restarts.specs.Leads.{RestartsOnce};

/// Between two scans of the one log stands one restart at most, whoever begins to lead, how often and by whatever
/// clocks.
pub fn a_restart_is_made_once()
    ensures { RestartsOnce }
{}
