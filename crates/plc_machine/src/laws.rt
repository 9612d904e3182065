//! What holds of the machines of a group.

ghost use Rattle.std.specs.Prelude.{◌≡◌, ◌≤◌, ◌<◌, ◌^◌, ℕ, List, [], Ok, Some, length};
ghost use Rattle.plc_group.specs.declared.group.Group.{Group};
ghost use Rattle.plc_machine.specs.Leading.{later_by, moment_at, opens_from};
ghost use Rattle.plc_machine.specs.Making.{new_saying, waiting_saying, wanted_by};
ghost use Rattle.plc_machine.specs.declared.leading.LastScan.{LastScan};
ghost use Rattle.vr_model.specs.Groups.{group_size};
ghost use Rattle.plc_store.specs.Judging.{judged};
ghost use Rattle.plc_store.specs.Spelling.{spelling};
ghost use Rattle.plc_store.specs.declared.judging.Start.TheVariants.{First, Waits};

/// The moments of a machine that leads never go back, and begin at that of the last scan or above it.
pub fn moments_rise()
    ensures begin { (from : LastScan) (now : ℕ) → from.moment < 2 ^ 64 → from.moment ≤ moment_at from now }
    ensures rise { (from : LastScan) (now later : ℕ) → now ≤ later → moment_at from now ≤ moment_at from later }
{}

/// By one clock: where a scan came in at the next machine no earlier than it was submitted at the one before, what that
/// one shows of it has expired once the next opens.
pub fn no_two_show()
    ensures { (submitted came fresh time : ℕ) → submitted ≤ came → time < later_by submitted fresh
        → opens_from came fresh ≤ time → ⊥ }
{}

/// What is formatted for a machine of a group starts as a new machine of that group, or waits where it's one whose disk
/// was lost, if nothing else was put into its directory.
pub fn what_is_formatted_starts()
    ensures new { (group : Group) (machine : ℕ) (image : List ℕ) (store : ℕ) → machine < group_size group.config.f
        → length image < 2 ^ 32 → store < 2 ^ 64
        → judged (Some (spelling (new_saying group machine image store))) [] (wanted_by group) ≡ Ok First }
    ensures waiting { (group : Group) (machine : ℕ) (image : List ℕ) (store : ℕ) → machine < group_size group.config.f
        → length image < 2 ^ 32 → store < 2 ^ 64
        → judged (Some (spelling (waiting_saying group machine image store))) [] (wanted_by group) ≡ Ok Waits }
{}
