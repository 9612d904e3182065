//! What is read of a journal, to be printed.

ghost use Rattle.std.specs.Prelude.{◌≡◌, ◌++◌};
ghost use Rattle.rtrb.specs.Ring.{known_items, SameConsumer};
ghost use Rattle.plc_status.specs.Journal.{printed, IsFeedPrinted, IsJournalOf, PrintsOf};
ghost use Rattle.plc_status.specs.Notices.{WentOutInOrder};

use crate::journal::Journal;
use crate::notice::{Notice, put_line};
use io_model::CountedWrite;
use rtrb::Consumer;

/// The notices of one journal, in order and each once.
#[derive(Drop)]
pub(crate) struct Feed {
    pub(crate) consumer: Consumer<Notice>,
}

impl Feed {
    /// Prints what was put by now. Where the stream fails, what is left goes on all the same.
    pub(crate) fn print<E: CountedWrite>(&mut self, err: &mut E)
        ensures { PrintsOf E.CountedWrite self.old self.new err.old err.new }
    {
        self.consumer.slots();
        self.print_known(err);
    }

    /// Prints what it knows to be there.
    fn print_known<E: CountedWrite>(&mut self, err: &mut E)
        ensures same { SameConsumer self.old.consumer self.new.consumer }
        ensures taken { printed self.new ≡ printed self.old ++ known_items self.old.consumer }
        ensures lines { WentOutInOrder E.CountedWrite (known_items self.old.consumer) err.old err.new }
    {
        for _ in 0..self.consumer.cached_slots() {
            let notice = self.consumer.pop_known();
            let _ = put_line(err, notice);
        }
    }

    /// Prints all that is left of a journal, whose thread has ended.
    pub(crate) fn finish<E: CountedWrite>(&mut self, journal: &mut Journal, err: &mut E)
        requires { IsJournalOf journal.old self.old }
        ensures printed { IsFeedPrinted E.CountedWrite journal.old self.old err.old err.new }
        ensures lost { journal.new.lost ≡ journal.old.lost }
    {
        self.consumer.slots_beside(&mut journal.producer);
        self.print_known(err);
    }
}
