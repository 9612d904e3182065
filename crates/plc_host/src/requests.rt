//! Requests of Modbus clients, by what they asked and how they were answered.

ghost use Rattle.std.specs.Prelude.{◌≡◌, ◌<◌};
ghost use Rattle.plc_host.specs.Requests.{no_request, place_of, with_exception, with_one, with_request};

/// The functions whose requests are counted each by itself.
pub const FUNCTIONS: [u8; 10] = [1, 2, 3, 4, 5, 6, 15, 16, 22, 23];

/// So many counts by functions there are: one for each of these, and the last for all others.
pub const PLACES: usize = 11;

/// The greatest code of an exception; the least is 1.
pub const EXCEPTIONS: usize = 4;

/// How many requests were answered.
#[derive(Clone, Copy, Debug, PartialEq, Eq)]
pub struct Requests {
    /// Of each function, in the order of `FUNCTIONS`, and behind them of all others.
    pub functions: [u64; PLACES],
    /// By an exception, of each code.
    pub exceptions: [u64; EXCEPTIONS],
}

/// The place of a function's count.
fn place_of(function: u8) -> usize
    ensures value { result ≡ place_of function }
    ensures within { result < 11 }
{
    FUNCTIONS.iter().take_while(|own| **own != function).count()
}

/// Counts one more at this place, if there is one, as far as it can be counted.
fn add_one(counts: &mut [u64], place: usize)
    ensures { counts.new ≡ with_one counts.old place }
{
    if place < counts.len() {
        counts[place] = counts[place].saturating_add(1);
    }
}

impl Requests {
    /// None was answered.
    pub fn none() -> Requests
        ensures { result ≡ no_request }
    {
        Requests {
            functions: [0; PLACES],
            exceptions: [0; EXCEPTIONS],
        }
    }

    /// Counts the exception of this code, if it's one.
    fn count_exception(&mut self, exception: Option<u8>)
        ensures exceptions { self.new.exceptions ≡ with_exception self.old.exceptions exception }
        ensures functions { self.new.functions ≡ self.old.functions }
    {
        if let Some(code) = exception {
            add_one(&mut self.exceptions, usize::from(code.saturating_sub(1)));
        }
    }

    /// Counts a request of this function, which was answered by the exception of this code if by one.
    pub fn count(&mut self, function: u8, exception: Option<u8>)
        ensures { self.new ≡ with_request self.old function exception }
    {
        add_one(&mut self.functions, place_of(function));
        self.count_exception(exception);
    }
}
