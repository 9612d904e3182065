//! A store is made once, and opened at each start.

ghost use Rattle.std.specs.Prelude.{◌≡◌, ◌⊎◌, IfErr, IfOk, IsTrue, OnOk, Ok, Err, Some};
ghost use Rattle.plc_store.specs.Judging.{IsBlank, IsFromOutside, IsUnread, found_in, is_unbegun, judged};
ghost use Rattle.plc_store.specs.Spelling.{saying, spelling};
ghost use Rattle.plc_store.specs.declared.judging.Refusal.TheVariants.{Used};

use crate::directory::StoreDirectory;
use crate::header::Store;
use crate::judging::{Refusal, Start, Wanted, judge};
use crate::reading::read_store;
use crate::spelling::spell;
use std::alloc::Global;

/// The store of a directory, whatever may be done with it.
pub fn stored_in<D: StoreDirectory>(alloc: Global, directory: &D) -> Result<Store, Refusal>
    ensures found { IfOk result (λ store. found_in (D.group directory.now) ≡ Ok (saying store)) }
    ensures spelled { IfOk result (λ store. D.group directory.now ≡ Some (spelling (saying store))) }
    ensures refused { IfErr result (IsUnread (D.group directory.now)) }
{
    let Some(bytes) = directory.group() else {
        return Err(Refusal::NoStore);
    };
    Ok(read_store(alloc, bytes)?)
}

/// Makes the store of a directory that holds nothing of one. It's `Used` where it does, and stays as it is.
pub fn format<D: StoreDirectory>(
    alloc: Global,
    directory: &mut D,
    store: &Store,
) -> Result<(), Refusal>
    requires { IsTrue (is_unbegun store.now.header.kept) }
    ensures made { OnOk result (D.group directory.new ≡ Some (spelling (saying store.now))) }
    ensures blank { OnOk result (IsBlank (D.group directory.old) (D.views directory.old) (D.mark directory.old)) }
    ensures used { ¬ IsBlank (D.group directory.old) (D.views directory.old) (D.mark directory.old)
        → (result ≡ Err Used) × (D.group directory.new ≡ D.group directory.old) }
    ensures refused { IfErr result (λ e. (e ≡ Used
        → ¬ IsBlank (D.group directory.old) (D.views directory.old) (D.mark directory.old))
        × ((e ≡ Used) ⊎ IsFromOutside e)) }
    ensures whole { (D.group directory.new ≡ D.group directory.old)
        ⊎ (D.group directory.new ≡ Some (spelling (saying store.now))) }
{
    if directory.group().is_some() || !directory.views().is_empty() || directory.mark().is_some() {
        return Err(Refusal::Used);
    }
    let bytes = spell(alloc, store)?;
    Ok(directory.put(bytes)?)
}

/// A store that a machine starts from.
#[derive(Drop)]
pub struct Opened {
    pub store: Store,
    pub start: Start,
}

/// The store of a directory, and how its machine starts from it.
pub fn open<D: StoreDirectory>(
    alloc: Global,
    directory: &D,
    wanted: &Wanted,
) -> Result<Opened, Refusal>
    ensures judged { IfOk result (λ opened.
        judged (D.group directory.now) (D.views directory.now) wanted.now ≡ Ok opened.start) }
    ensures opened { IfOk result (λ opened. D.group directory.now ≡ Some (spelling (saying opened.store))) }
    ensures refused { IfErr result (λ e. IsFromOutside e
        ⊎ (judged (D.group directory.now) (D.views directory.now) wanted.now ≡ Err e)) }
{
    let store = stored_in(alloc, directory)?;
    let start = judge(&store.header, directory.views(), wanted)?;
    Ok(Opened { store, start })
}
