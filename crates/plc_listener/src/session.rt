//! What connections are served with.

use crate::connection::Connection;
use plc_host::Host;
use std::sync::Wait;
use std::time::Clock;

/// What one place serves its connections with, one after another.
pub trait Session<R: Wait + Clock + Copy + Drop> {
    /// Serves a connection to its end, whichever that is.
    fn serve(&mut self, host: &Host<R>, connection: &Connection<'_, R>);

    /// Is told, at the first place, that the door isn't to be had yet (`false`), and then that it's had (`true`). Of a
    /// door that is had at once nothing is told.
    fn hear_of_door(&mut self, _is_had: bool) {}
}
