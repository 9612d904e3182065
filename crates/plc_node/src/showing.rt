//! The page that shows a controller, if one is wanted.

use il_loader::Image;
use io_image::{Naming, ReleasedReader};
use plc_host::{Failed, Host, ServiceRuntime};
use plc_listener::DoorRuntime;
use plc_page::{OpenPage, Page, Published, Showing, Whose};
use plc_settings::Settings;
use plc_sight::SnapshotBoard;
use plc_status::{Journal, StatusReader};
use std::sync::Arc;
use std::sync::atomic::AtomicBool;
use std::time::Instant;

/// What a page shows.
#[derive(Drop)]
pub(crate) struct ToShow {
    pub(crate) status: StatusReader,
    /// From when the moments of the scans count.
    pub(crate) begun: Instant,
    /// Another program may be in force than the one that was served at first.
    pub(crate) has_changed: Arc<AtomicBool>,
    /// Where what becomes of the page's port is noted.
    pub(crate) journal: Journal,
    /// What is shown beside it. Without it there's no page.
    pub(crate) showing: Option<Showing>,
    /// Where a replica leaves snapshots of the controller for those who want one.
    pub(crate) sight: Arc<SnapshotBoard>,
}

impl ToShow {
    /// The page at the address that the settings name, if one is wanted: nobody is shown it yet.
    pub(crate) fn page<R, J>(
        self,
        host: Host<R>,
        settings: &Settings,
        image: &Image,
        released: ReleasedReader<J>,
    ) -> Result<Option<Page<R, J>>, Failed>
    where
        R: DoorRuntime,
        J: Naming + Send + Sync + 'static,
    {
        let ToShow {
            status,
            begun,
            has_changed,
            journal,
            showing,
            sight,
        } = self;
        let (Some(address), Some(showing)) = (settings.status, showing) else {
            return Ok(None);
        };
        let published = Published {
            whose: Whose::Group(settings.config.group_size()),
            period: settings.period,
            status,
            released,
            begun,
            has_changed,
            sight,
            journal,
        };
        Ok(Some(Page::new(host, address, image, showing, published)?))
    }
}

/// Shows a page, if there is one.
pub(crate) fn opened_page<R: DoorRuntime, J: Naming + Send + Sync + 'static>(
    page: Option<Page<R, J>>,
) -> Result<Option<OpenPage<R, J>>, Failed> {
    match page {
        Some(page) => Ok(Some(page.open()?)),
        None => Ok(None),
    }
}

/// Shows it no more.
pub(crate) fn close_page<R: ServiceRuntime, J: Naming>(page: Option<OpenPage<R, J>>) {
    if let Some(page) = page {
        page.close();
    }
}
