//! What every stream of records gives.

ghost use Rattle.net_records.specs.Records.{AreJoined};

/// The law that a stream of records has one list of bodies, in whatever pieces it comes, that those are given, joined,
/// and that of a prefix of a stream a prefix of that is given.
pub fn know_records()
    ensures { AreJoined }
{}
