//! What the page of a controller shows beside what is published of it, and that of a field.

ghost use Rattle.std.specs.Prelude.{◌≡◌, IfOk};
ghost use Rattle.plc.specs.Asked.{address_of};

use field_page::PageAt;
use plc_host::Failed;
use plc_page::{Notices, ProcessFiles, Showing};
use plc_words::VERSION;
use std::hash::RandomState;
use std::net::SocketAddr;
use std::sync::Arc;

/// What a page shows beside what is published, if one is wanted.
pub(crate) fn showing_of(rt: &HostRuntime, is_wanted: bool) -> Result<Option<Showing>, Failed> {
    if !is_wanted {
        return Ok(None);
    }
    Ok(Some(Showing {
        version: VERSION,
        notices: Arc::new(rt.alloc(), Notices::new(rt.alloc()))?,
        keys: RandomState::new(rt)?,
        process: ProcessFiles::open(rt).ok(),
    }))
}

/// Where the lines are kept that a page shows, if there is one.
pub(crate) fn notices_of(showing: &Option<Showing>) -> Option<Arc<Notices>> {
    match showing {
        Some(showing) => Arc::try_clone(&showing.notices).ok(),
        None => None,
    }
}

/// The same again, of a machine that goes on in a later epoch; none where that isn't to be had.
pub(crate) fn another_showing(rt: &HostRuntime, showing: &Option<Showing>) -> Option<Showing> {
    let Some(showing) = showing else {
        return None;
    };
    Some(Showing {
        version: showing.version,
        notices: Arc::try_clone(&showing.notices).ok()?,
        keys: RandomState::new(rt).ok()?,
        process: ProcessFiles::open(rt).ok(),
    })
}

/// The page of a field at this address, if there is one.
pub(crate) fn page_at(
    rt: &HostRuntime,
    status: Option<SocketAddr>,
) -> Result<Option<PageAt>, Failed>
    ensures { IfOk result (λ page. address_of page ≡ status) }
{
    let Some(address) = status else {
        return Ok(None);
    };
    Ok(Some(PageAt {
        address,
        version: VERSION,
        notices: Arc::new(rt.alloc(), Notices::new(rt.alloc()))?,
        keys: RandomState::new(rt)?,
    }))
}

/// Where the lines are kept that the page of a field shows, if there is one.
pub(crate) fn notices_at(page: &Option<PageAt>) -> Option<Arc<Notices>> {
    match page {
        Some(page) => Arc::try_clone(&page.notices).ok(),
        None => None,
    }
}
