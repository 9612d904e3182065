//! What holds of every store.

ghost use Rattle.std.specs.Prelude.{◌≡◌, ◌≢◌, ◌<◌, ℕ, List, [], Option, Err, None, Ok, Some, false, length, take, true};
ghost use Rattle.net_hello.specs.Identity.{is_another_store, judged_by};
ghost use Rattle.net_hello.specs.declared.hello.Epoch.{Epoch as Numbered};
ghost use Rattle.net_hello.specs.declared.hello.Hello.{Hello};
ghost use Rattle.net_hello.specs.declared.hello.Known.{Known};
ghost use Rattle.net_hello.specs.declared.judging.Refusal.TheVariants.{OtherStore};
ghost use Rattle.plc_epochs.specs.declared.kept.Kept.{Kept};
ghost use Rattle.plc_epochs.specs.declared.kept.Kept.TheVariants as keeps;
ghost use Rattle.plc_store.specs.Judging.{HasEntered, judged};
ghost use Rattle.plc_store.specs.Keeping.{are_of_one_epoch, with_kept};
ghost use Rattle.plc_store.specs.Marking.{changed_image, mark_bytes};
ghost use Rattle.plc_store.specs.Spelling.{Fits, Saying, spelling};
ghost use Rattle.plc_store.specs.declared.judging.Refusal.TheVariants.{NoStore};
ghost use Rattle.plc_store.specs.declared.judging.Start.TheVariants.{First};
ghost use Rattle.plc_store.specs.declared.judging.Wanted.{Wanted};

/// A store that was cut is no store: no spelling begins another.
pub fn cut_is_refused()
    ensures { (said other : Saying) (n : ℕ) → Fits said → Fits other → n < length (spelling said)
        → take n (spelling said) ≢ spelling other }
{}

/// A mark has its image: what it says of a change in its epoch is read of it.
pub fn a_mark_has_its_image()
    ensures { (epoch : Numbered) (image : List ℕ) → length epoch.image ≡ 32 → 0 < length image
        → changed_image epoch (mark_bytes epoch image) ≡ Some image }
{}

/// A directory without a store is never a new machine, whatever views it holds; and a store whose machine has begun its
/// epoch is never new in that again, whatever becomes of its view. What is new is a store whose machine has entered an
/// epoch and not begun it. So only `format` makes a machine that is new, and `keep` once for each later epoch.
pub fn a_start_is_new_once()
    ensures blank { (views : List ℕ) (wanted : Wanted) → judged None views wanted ≡ Err NoStore }
    ensures begun { (said : Saying) (epoch : Numbered) (views : List ℕ) (wanted : Wanted) → Fits said
        → said.header.kept ≡ keeps.Begun epoch → judged (Some (spelling said)) views wanted ≢ Ok First }
    ensures entered { (group : Option (List ℕ)) (views : List ℕ) (wanted : Wanted)
        → judged group views wanted ≡ Ok First → HasEntered group }
{}

/// A copy of a store from an epoch before is another store in each epoch that both come to, if the numbers that are drawn
/// for them there differ: whoever has seen the store in that epoch refuses the copy.
pub fn a_copy_is_another_store()
    ensures another { (store copy : Saying) (kept : Kept) (drawn again : ℕ)
        → are_of_one_epoch store.header.kept kept ≡ false → are_of_one_epoch copy.header.kept kept ≡ false
        → drawn ≢ 0 → drawn ≢ again → is_another_store (with_kept store kept drawn).header.store
        (with_kept copy kept again).header.store ≡ true }
    ensures refused { (own other : Hello) (seen : Known) → is_another_store seen.store other.store ≡ true
        → judged_by own seen other ≡ Err OtherStore }
{}
