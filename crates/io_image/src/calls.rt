//! What holds of every list of calls of a book.
ghost use Rattle.io_image.specs.Calls.{EachSampleHolds};

/// Whatever calls a new book takes, each write that got a ticket stands whole, in ticket order, in the first sample
/// after it.
pub fn each_sample_holds_its_writes()
    ensures { EachSampleHolds }
{}
