//! What comes of a round.

ghost use Rattle.field_cycle.specs.Rounds.{IsEachRoundGathered};

/// A round whose writings are done takes a reply to each reading that shows its cells, and then it's whole, and has
/// gathered what they show.
pub fn know_a_round()
    ensures { IsEachRoundGathered }
{}
