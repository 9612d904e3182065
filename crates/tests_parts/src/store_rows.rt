//! A store whose file can't be opened.

use std::fs;
use std::process::Abort;
use std::test::Fail;
use vr_replica::{StoreFault, ViewStore};
use vr_threads::{FileStore, Starts};

/// A file stands where the directory should be: that's no first start.
#[test]
fn what_cannot_be_opened_is_no_first_start(rt: HostRuntime) -> Result<(), Fail> {
    drop(fs::create(&rt, "store-rows")?);
    let mut store = FileStore::new(rt, rt.alloc(), "store-rows", 0)?;
    assert_eq!(rt;
        (store.load(), store.begin()),
        (Err(StoreFault), Err(StoreFault))
    );
    assert_eq!(rt; store.faults(), 2);
    Ok(fs::remove_file(&rt, "store-rows")?)
}
