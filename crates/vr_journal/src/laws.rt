//! What is promised of every file, whatever a power cut made of it.

ghost use Rattle.vr_journal.specs.Journals.{KeepsWhatWasWritten};
ghost use Rattle.vr_journal.specs.Records.{ReadBack};

/// What was written is read back, whatever stands behind it; of what was written and cut short, or changed, a prefix is
/// read. Where bytes were changed it rests on their sums (`AreHonest`); else on nothing.
pub fn what_was_written_is_read()
    ensures { ReadBack }
{}

/// A file that was begun with `begin` and went on with `put` keeps its generation, its base and the inputs that were
/// put, whatever stands behind them.
pub fn what_was_written_is_kept()
    ensures { KeepsWhatWasWritten }
{}
