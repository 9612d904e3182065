//! What prints the journals.

ghost use Rattle.plc_status.specs.Journal.{loss, IsJournalOf, IsPrintedOut, Prints};
ghost use Rattle.plc_status.specs.Notices.{WentOutInOrder};

use crate::feed::Feed;
use crate::journal::{Bell, Journal};
use crate::notice::{Notice, put_line};
use io_model::CountedWrite;
use std::sync::{Arc, Wait};

/// Prints what is put into the journals, a line for each notice: those of one journal in order, and each once.
#[derive(Drop)]
pub struct Printer {
    pub(crate) driver: Feed,
    pub(crate) console: Feed,
    pub(crate) page: Feed,
    pub(crate) bell: Arc<Bell>,
}

impl Printer {
    /// Prints what was put by now. Where the stream fails, what is left goes on all the same.
    pub fn print<E: CountedWrite>(&mut self, err: &mut E)
        ensures { Prints E.CountedWrite self.old self.new err.old err.new }
    {
        self.driver.print(err);
        self.console.print(err);
        self.page.print(err);
    }

    /// Prints what is put, as soon as it is, until the journals end.
    #[tactic(auto, using(crate::proofs::Merging::nothing))]
    pub fn attend<R: Wait, E: CountedWrite>(&mut self, rt: &R, err: &mut E)
        ensures { Prints E.CountedWrite self.old self.new err.old err.new }
    {
        for _ in rt.forever() {
            let is_over = self.bell.is_over();
            self.print(err);
            if is_over {
                return;
            }
            self.bell.wait(rt);
        }
        unreachable!()
    }

    /// Prints all that is left of the driver's journal, whose thread has ended, and how many of its notices were lost
    /// at the end; of the others what was put by now.
    pub fn finish<E: CountedWrite>(&mut self, journal: &mut Journal, err: &mut E)
        requires { IsJournalOf journal.old self.old.driver }
        ensures { IsPrintedOut E.CountedWrite journal.old self.old self.new err.old err.new }
    {
        self.driver.finish(journal, err);
        self.console.print(err);
        self.page.print(err);
        print_loss(journal.lost, err);
    }
}

/// Prints how many notices were lost, if any were.
#[tactic(auto, using(crate::proofs::Printing::none_lost, crate::proofs::Printing::some_lost))]
fn print_loss<E: CountedWrite>(lost: usize, err: &mut E)
    ensures { WentOutInOrder E.CountedWrite (loss lost) err.old err.new }
{
    if lost > 0 {
        let _ = put_line(err, Notice::Lost(lost));
    }
}
