//! The page at which a field is shown, if one is wanted.

use crate::table::put_table;
use field_cycle::Cycle;
use field_map::FieldMap;
use field_page::{FieldPage, OpenFieldPage, PageAt};
use io_model::Counted;
use plc_host::{Failed, Host, ServiceRuntime};
use std::alloc::Global;
use std::net::{Net, TcpListener, TcpStream};

/// What goes where, a line each.
pub(crate) fn table_of(alloc: Global, map: &FieldMap) -> Result<Vec<u8>, Failed> {
    let mut table = Vec::new(alloc);
    put_table(alloc, map, &mut Counted::new(&mut table))?;
    Ok(table)
}

/// The page of a field, if one is wanted: it shows from now on what goes where, and what the cycle has.
pub(crate) fn opened_page<R>(
    host: &Host<R>,
    page: Option<PageAt>,
    table: Vec<u8>,
    cycle: &Cycle,
) -> Result<Option<OpenFieldPage<R>>, Failed>
where
    R: ServiceRuntime + Net<Listener = TcpListener, Stream = TcpStream>,
{
    let Some(at) = page else {
        return Ok(None);
    };
    let host = Host {
        rt: host.rt,
        alloc: host.alloc,
    };
    let page = FieldPage::new(host, at, table, cycle)?;
    Ok(Some(page.open()?))
}

/// Shows it no more.
pub(crate) fn close_page<R: ServiceRuntime>(page: Option<OpenFieldPage<R>>) {
    if let Some(page) = page {
        page.close();
    }
}
