//! What is promised of files, whatever a power cut makes of them.

ghost use Rattle.vr_disk.specs.Cuts.{CutsKeepWhatWasFlushed};
ghost use Rattle.vr_disk.specs.Disks.{WritesBehind};

use vr_journal::what_was_written_is_read;

/// A writing that was done puts its records behind those that stand in its file.
pub fn a_writing_goes_behind()
    ensures { WritesBehind }
{}

/// Of a file that a power cut left while a writing was under way are kept: its base, the inputs that were flushed, and
/// behind them some first ones of those that were being written.
pub fn cuts_keep_what_was_flushed()
    ensures { CutsKeepWhatWasFlushed }
{
    what_was_written_is_read();
}
