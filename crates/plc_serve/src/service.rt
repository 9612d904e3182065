//! What a controller is served from: a file with its text, and directories.

ghost use Rattle.std.specs.Prelude.{◌≡◌, IfErr, IfOk, OnOk, vec_len};
ghost use Rattle.vr_model.specs.Groups.{group_size};
ghost use Rattle.il_text.specs.Meaning.{IsGoodText, IsTypedProgramOfText, IsTextFault, OrMemory};

use il_loader::Image;
use il_text::{Fault, image};
use plc_driver::Directory;
use plc_host::{Failed, Host};
use plc_page::Showing;
use plc_settings::{ModbusClients, Operators, Settings};
use plc_status::StatusWriter;
use std::alloc::{AllocError, Global};
use std::fs;
use std::rt::Files;
use vr_threads::FileStore;

/// A controller that is to be served, with a store for each replica, none of which is opened yet.
#[derive(Drop)]
pub struct Service<S: Drop> {
    pub source: Vec<u8>,
    /// One directory for all stores, or one for each, in their order.
    pub directories: Vec<String>,
    pub stores: Vec<S>,
    pub settings: Settings,
    /// What is shown of it while it's served: a reader of it is to be had before.
    pub status: StatusWriter,
    /// What a page shows beside it, if one is wanted.
    pub showing: Option<Showing>,
    /// How operators come to its console, if it has one.
    pub operators: Operators,
    /// Who may come as a Modbus client.
    pub clients: ModbusClients,
    ghost one_each: { vec_len stores ≡ group_size settings.config.f },
}

impl<R: Files + Alloc<A = Global> + Copy + Drop> Service<FileStore<R>> {
    /// Of the text that this file holds, with stores in this directory, or in one for each replica.
    pub fn new(
        host: Host<R>,
        source: &str,
        directories: &[&str],
        settings: Settings,
        showing: Option<Showing>,
    ) -> Result<Service<FileStore<R>>, Failed>
        ensures { IfOk result (λ service. service.settings ≡ settings) }
    {
        let Host { rt, alloc } = host;
        let directories = owned(alloc, directories)?;
        let place = Directory {
            paths: directories.as_slice(),
            config: settings.config,
        };
        let stores = place.stores(rt, alloc)?;
        Ok(Service {
            source: fs::read(&rt, source)?,
            directories,
            stores,
            settings,
            status: StatusWriter::new(alloc)?,
            showing,
            operators: Operators::by_port(),
            clients: ModbusClients::all(),
        })
    }
}

impl<S: Drop> Service<S> {
    /// The same, with operators who come so, and these Modbus clients.
    pub fn with(self, operators: Operators, clients: ModbusClients) -> Service<S>
        ensures settings { result.settings ≡ self.settings }
        ensures source { result.source ≡ self.source }
    {
        let Service {
            source,
            directories,
            stores,
            settings,
            status,
            showing,
            operators: _port,
            clients: _all,
        } = self;
        Service {
            source,
            directories,
            stores,
            settings,
            status,
            showing,
            operators,
            clients,
        }
    }
}

/// These paths, kept.
fn owned(alloc: Global, paths: &[&str]) -> Result<Vec<String>, AllocError> {
    let mut kept = Vec::new(alloc);
    for path in paths {
        kept.push(String::from_str(alloc, path)?)?;
    }
    Ok(kept)
}

/// A controller that is to be served, with the image of its text's program.
#[derive(Drop)]
pub(crate) struct Loaded<S: Drop> {
    pub(crate) source: Vec<u8>,
    pub(crate) image: Image,
    pub(crate) directories: Vec<String>,
    pub(crate) stores: Vec<S>,
    pub(crate) settings: Settings,
    pub(crate) status: StatusWriter,
    pub(crate) showing: Option<Showing>,
    pub(crate) operators: Operators,
    pub(crate) clients: ModbusClients,
    ghost one_each: { vec_len stores ≡ group_size settings.config.f },
}

impl<S: Drop> Loaded<S> {
    /// Judges the text.
    pub(crate) fn of(alloc: Global, service: Service<S>) -> Result<Loaded<S>, Fault>
        ensures source { IfOk result (λ loaded. loaded.source ≡ service.source) }
        ensures program { IfOk result (λ loaded. IsTypedProgramOfText loaded.source.items loaded.image) }
        ensures good { OnOk result (IsGoodText service.source.items) }
        ensures settings { IfOk result (λ loaded. loaded.settings ≡ service.settings) }
        ensures refused { IfErr result (OrMemory (IsTextFault service.source.items)) }
    {
        let Service {
            source,
            directories,
            stores,
            settings,
            status,
            showing,
            operators,
            clients,
        } = service;
        Ok(Loaded {
            image: image(alloc, source.as_slice())?,
            source,
            directories,
            stores,
            settings,
            status,
            showing,
            operators,
            clients,
        })
    }
}
