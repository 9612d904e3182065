//! What comes of handing devices over.

ghost use Rattle.field_map.specs.Carried.{IsEachCarried, IsEachGathered, IsEachGiven};

/// Where no place is filled twice, as in each `FieldMap`, and the devices were handed over one after the other, each
/// place that a reading fills has what was gathered there, or what its device's fallback says; each alive bit says
/// whether its device answers; and no other place is written.
pub fn know_each_place()
    ensures { IsEachGiven }
{}

/// Where no place is read twice, as in each `FieldMap`, and each reading has a reply that shows its cells, what is
/// gathered of them has at each place the value that was read for it.
pub fn know_each_reading()
    ensures { IsEachGathered }
{}

/// Where no place is filled twice, as in each `FieldMap`, and each device answered its readings or is lost: once all
/// were handed over, each place that a reading fills has the value that its device showed for it, or, of a lost device,
/// what its fallback says; each alive bit says whether its device answered; and no other place is written.
pub fn know_a_cycle()
    ensures { IsEachCarried }
{}
