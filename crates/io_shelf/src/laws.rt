//! What is so of a file over all processes. There is no code here: each function's clause states a law.

ghost use Rattle.std.specs.Prelude.{◌≡◌, ℕ, List, Option, [], ◌∷◌};
ghost use Rattle.io_shelf.specs.Counts.{IsCount};
ghost use Rattle.io_shelf.specs.Lives.{Deed, DoesAll, Has, Lives, Rise, all_told, left_by};
ghost use Rattle.io_shelf.specs.Shelves.{Only, OldOrNew};

use crate::shelf::Shelf;

/// A later process finds what the one before left, or what that was changing the file to: whatever a process did with a
/// file that had this, and wherever it's killed then, also within a change to that, it leaves what it was last changed
/// to, or what a change to failed since, or what it was being changed to.
pub fn later_starts_find_what_was_left<S: Shelf>()
    ensures between { (found : Option (List ℕ)) (deeds : List Deed) (opened done : S)
        → Only found (S.may_leave opened) → DoesAll S.may_leave opened deeds done
        → (c : Option (List ℕ)) → S.may_leave done c → Has (left_by (found ∷ []) deeds) c }
    ensures within { (found next : Option (List ℕ)) (deeds : List Deed) (opened done end : S)
        → Only found (S.may_leave opened) → DoesAll S.may_leave opened deeds done
        → OldOrNew next (S.may_leave done) (S.may_leave end)
        → (c : Option (List ℕ)) → S.may_leave end c → Has (next ∷ left_by (found ∷ []) deeds) c }
{}

/// What a file counts rises over all processes, each of which may be killed at any moment: each number that is answered
/// is more than all that were answered before.
pub fn counts_rise<S: Shelf>()
    ensures { (found : Option (List ℕ)) (m : ℕ) (lives : List (List (Option ℕ))) → IsCount found m
        → Lives S.may_leave found lives → Rise m (all_told lives) }
{}
