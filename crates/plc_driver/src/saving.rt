//! The stores of a group, whose saves are tried again.

ghost use Rattle.std.specs.Prelude.{◌≡◌, IfOk, vec_len};

use std::alloc::{AllocError, Global};
use std::sync::Arc;
use std::time::Clock;
use vr_threads::{PatientStore, Saves};

/// These stores, whose saves are tried again, and how those go, store by store.
pub(crate) fn patient_stores<S: Drop, R: Clock + Copy + Drop>(
    rt: R,
    alloc: Global,
    stores: Vec<S>,
) -> Result<(Vec<PatientStore<S, R>>, Vec<Arc<Saves>>), AllocError>
    ensures { IfOk result (λ r. vec_len r.0 ≡ vec_len stores) }
{
    let mut patient = Vec::new(alloc);
    let mut all = Vec::new(alloc);
    for store in stores {
        let saves = Arc::new(alloc, Saves::new())?;
        all.push(Arc::try_clone(&saves)?)?;
        patient.push(PatientStore::new(rt, store, saves))?;
    }
    Ok((patient, all))
}
