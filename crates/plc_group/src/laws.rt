//! What holds of every file of a group.

ghost use Rattle.toml.specs.Data.{Members};
ghost use Rattle.plc_group.specs.Said.{Says};
ghost use Rattle.plc_group.specs.Sharing.{AgreeForStores, AreOneGroup};
ghost use Rattle.plc_group.specs.declared.group.Group.{Group};

/// Files that differ only at keys which are a machine's own, or which may change while all are stopped (`Key::sharing`),
/// and in addresses of machines, are of one group: what tells it from others is the same.
pub fn copies_are_of_one_group()
    ensures { (s t : Members) (a b : Group) → Says s a → Says t b → AgreeForStores s t → AreOneGroup a b }
{}
