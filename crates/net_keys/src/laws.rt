//! What sums promise of a connection.

ghost use Rattle.net_keys.specs.Forging.{AreTold, OnlySealedIsHeard};

/// The law that other records have other texts, and other challenges other terms, before they are summed.
pub fn texts_are_told()
    ensures { AreTold }
{}

/// The law that what an end opened over a connection is a prefix of what the other end sealed there, in order, or one
/// of the records that it opened was forged.
pub fn only_sealed_is_heard()
    ensures { OnlySealedIsHeard }
{}
