//! Double words of the inputs.
ghost use Rattle.modbus_server.specs.Doubles.{DoublesAreWhole};

/// That a double word of the inputs, after writes each of which gives it both of its words or none, is the last that
/// one of them gave, and never a half of one. A request that writes both of its registers is such a write, and a sample
/// shows the writes before it.
pub fn doubles_are_whole()
    ensures { DoublesAreWhole }
{}
