//! A controller from the start of its replicas to their end.

ghost use Rattle.std.specs.Prelude.{◌≡◌, IfOk, OnOk, Some, vec_len};
ghost use Rattle.vr_model.specs.Groups.{group_size};
ghost use Rattle.plc_status.specs.Notices.{IsAtMostServingTold, IsServingTold};

use crate::opening::{Kept, Notes, Ready};
use il_loader::Image;
use io_image::{Naming, NewList};
use io_model::CountedWrite;
use plc_driver::{Directory, Driver, GroupLinks, Parts};
use plc_host::{Failed, Host, ServiceRuntime};
use plc_listener::DoorRuntime;
use plc_page::Showing;
use plc_settings::{ModbusClients, Operators, Settings};
use plc_status::{Counts, Journals, StatusWriter};
use std::rt::Files;
use std::time::Instant;
use vr_ports::Relink;
use vr_threads::Starts;

/// What a controller is made of that is to be served: its program's image, and a store of the directory for each
/// replica, none of which is opened yet.
#[derive(Drop)]
pub struct Node<'a, S: Drop> {
    pub image: Image,
    pub directory: Directory<'a>,
    pub stores: Vec<S>,
    pub settings: Settings,
    /// What is shown of it meanwhile.
    pub status: StatusWriter,
    /// What a page shows beside it, if one is wanted.
    pub showing: Option<Showing>,
    /// How operators come to its console, if it has one.
    pub operators: Operators,
    /// Who may come as a Modbus client.
    pub clients: ModbusClients,
    ghost one_each: { vec_len stores ≡ group_size settings.config.f },
}

impl<S: Starts + Send + Drop + 'static> Node<'_, S> {
    /// Serves the controller until it has released as many scans as are asked for, and ends each thread that it began.
    /// Once it takes connections, `err` has the line that tells where, and then a line for each change. Where no client
    /// was served, no file of a replica is left.
    pub fn run<J, R, E: CountedWrite>(
        self,
        host: Host<R>,
        list: NewList,
        err: &mut E,
    ) -> Result<Counts, Failed>
    where
        J: Naming + Send + Sync + 'static,
        R: DoorRuntime + Files,
        requires list { list ≡ J.book }
        ensures scans { IfOk result (λ counts. self.entry.settings.scans ≡ Some counts.scans) }
        ensures told { OnOk result (IsServingTold E.CountedWrite err.old err.new) }
        ensures at_most { IsAtMostServingTold E.CountedWrite err.old err.new }
    {
        match GroupLinks::of(host, &self.settings)? {
            GroupLinks::Tcp(links) => self.run_over::<J, R, _, E>(host, list, links, err),
            GroupLinks::Channels(links) => self.run_over::<J, R, _, E>(host, list, links, err),
        }
    }

    /// Serves the controller over these links, those of the replicas, then that of the driver, and last that of the
    /// console if there is one.
    fn run_over<J, R, L, E: CountedWrite>(
        self,
        host: Host<R>,
        list: NewList,
        mut links: Vec<L>,
        err: &mut E,
    ) -> Result<Counts, Failed>
    where
        J: Naming + Send + Sync + 'static,
        R: DoorRuntime + Files,
        L: Relink + Send + Drop + 'static,
        requires list { list ≡ J.book }
        ensures scans { IfOk result (λ counts. self.entry.settings.scans ≡ Some counts.scans) }
        ensures told { OnOk result (IsServingTold E.CountedWrite err.old err.new) }
        ensures at_most { IsAtMostServingTold E.CountedWrite err.old err.new }
    {
        let Node {
            image,
            directory,
            stores,
            settings,
            status,
            showing,
            operators,
            clients,
        } = self;
        let alloc = host.alloc;
        let Journals {
            driver: journal,
            console,
            page,
            printer,
        } = Journals::new(alloc)?;
        let notes = Notes { console, page };
        let begun = Instant::now(&host.rt)?;
        let (kept, sight) = Kept::of(alloc, &status, notes, showing, begun)?;
        let kept = kept.with(operators, clients);
        let (ready, writer) = Ready::<R, L, J>::new(
            host, list, &settings, &image, &mut links, kept,
        )?;
        let parts = Parts {
            links,
            stores,
            writer,
            journal,
            status,
            begun,
            sight,
        };
        let driver = match Driver::start(host, &settings, &image, parts) {
            Ok(driver) => driver,
            Err(failed) => return Err(cleared(host, directory, failed)),
        };
        match ready.open(host, directory) {
            Ok(open) => open.attend(&host.rt, driver, printer, err),
            Err(failed) => {
                driver.end(&host.rt);
                Err(cleared(host, directory, failed))
            }
        }
    }
}

/// No file of a replica is left in the directory, since this failed.
fn cleared<R: ServiceRuntime + Files>(
    host: Host<R>,
    directory: Directory<'_>,
    failed: Failed,
) -> Failed {
    directory.clear(host.rt, host.alloc);
    failed
}
