//! What writes a trace.

ghost use Rattle.std.specs.Prelude.{◌≡◌, OnOk};
ghost use Rattle.plc_trace.specs.Tracing.{Writes};

use crate::line::{Line, Started, put_line, put_start};
use crate::trace::Bell;
use io_model::CountedWrite;
use plc_host::{Failed, Host, ServiceRuntime};
use rtrb::Consumer;
use std::alloc::Global;
use std::sync::Arc;
use std::thread;
use std::thread::JoinHandle;
use std::time::Duration;

/// In milliseconds: so long the thread that writes may take to its end.
const LONGEST_END: u64 = 10_000;

/// In milliseconds: from one look at whether it's there to the next.
const LOOK: u64 = 10;

/// What writes a trace, and doesn't yet.
#[derive(Drop)]
pub struct TraceWriter {
    pub(crate) consumer: Consumer<Line>,
    pub(crate) bell: Arc<Bell>,
}

/// What writes a trace, in a thread of its own. It can't be let go of but by `close`.
pub struct OpenTraceWriter {
    bell: Arc<Bell>,
    thread: JoinHandle<()>,
}

impl TraceWriter {
    /// The file isn't to be had: the trace has failed.
    pub fn give_up(self) {
        self.bell.fail();
    }

    /// Writes to a file from now on, first the line of a start. Where the file fails nothing more is written.
    pub fn open<R, F>(
        self,
        host: Host<R>,
        started: Started,
        file: F,
    ) -> Result<OpenTraceWriter, Failed>
    where
        R: ServiceRuntime,
        F: CountedWrite + Send + Drop + 'static,
    {
        let bell = Arc::try_clone(&self.bell)?;
        let work = move || self.attend(host, started, file);
        match thread::spawn(&host.rt, work) {
            Ok(thread) => Ok(OpenTraceWriter { bell, thread }),
            Err(_) => Err(Failed::Thread),
        }
    }

    /// Writes what is put, as soon as it is, until the trace ends or the file fails.
    fn attend<R: ServiceRuntime, F: CountedWrite + Drop>(
        mut self,
        host: Host<R>,
        started: Started,
        mut file: F,
    ) {
        if self.go_on(&host, started, &mut file).is_err() {
            self.bell.fail();
        }
        self.bell.leave();
    }

    /// The same, until the trace ends; or the first fault.
    fn go_on<R: ServiceRuntime, F: CountedWrite>(
        &mut self,
        host: &Host<R>,
        started: Started,
        file: &mut F,
    ) -> Result<(), Failed> {
        put_start(host.alloc, started, file)?;
        for _ in host.rt.forever() {
            let is_over = self.bell.is_over();
            self.consumer.slots();
            self.write_known(host.alloc, file)?;
            if is_over {
                return Ok(());
            }
            self.bell.wait(&host.rt);
        }
        unreachable!()
    }

    /// Writes what it knows to be there.
    fn write_known<F: CountedWrite>(&mut self, alloc: Global, file: &mut F) -> Result<(), Failed>
        ensures { OnOk result (Writes F.CountedWrite self.old self.new file.old file.new) }
    {
        for _ in 0..self.consumer.cached_slots() {
            let line = self.consumer.pop_known();
            put_line(alloc, &line, file)?;
        }
        Ok(())
    }
}

impl OpenTraceWriter {
    /// Writes what was put, and ends. A file that takes no more for ten seconds isn't waited for: its thread is left.
    pub fn close<R: ServiceRuntime>(self, rt: &R) {
        let OpenTraceWriter { bell, thread } = self;
        bell.end();
        if ends_soon(rt, &bell) {
            thread.join(rt);
        }
    }
}

/// Whether the thread that writes comes to its end, within ten seconds.
fn ends_soon<R: ServiceRuntime>(rt: &R, bell: &Bell) -> bool {
    for _ in 0..LONGEST_END / LOOK {
        if bell.has_ended() {
            return true;
        }
        thread::sleep(rt, Duration::from_millis(LOOK));
    }
    false
}
