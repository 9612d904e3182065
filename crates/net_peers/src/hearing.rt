//! What is heard of a record that came, by the sum that stands behind it.

ghost use Rattle.std.specs.Prelude.{◌≡◌, IfOk, IfSome, OnOk};
ghost use Rattle.net_hello.specs.Hellos.{IsHello};
ghost use Rattle.net_keys.specs.Sealing.{sum_of};
ghost use Rattle.net_keys.specs.declared.sealing.Side.TheVariants.{Dialler};
ghost use Rattle.net_peers.specs.Saying.{Says};

use crate::greeting::VISIT;
use crate::guard::machine_of;
use crate::proved::{Answering, Called, Left, Proved, Word};
use net_hello::Hello;
use net_keys::{ChallengeFault, SUM};

/// The hello that these bytes are.
fn hello_in(bytes: &[u8]) -> Option<Hello>
    ensures { IfSome result (λ hello. IsHello hello bytes.now) }
{
    match Hello::read(bytes) {
        Ok(found) => found,
        Err(_) => None,
    }
}

impl Called {
    /// Hears what the machine says first behind its proof.
    pub(crate) fn hear(self, body: &[u8], sum: &[u8; SUM]) -> Result<Word, ChallengeFault>
        ensures says { IfOk result (λ word. Says word body.now sum.now) }
        ensures summed { OnOk result (sum.now
            ≡ sum_of self.ends.opener.key self.ends.opener.side self.ends.opener.next body.now) }
    {
        let Called {
            guard,
            machine,
            ends,
            ..
        } = self;
        let mut ends = ends;
        match ends.opener.open(body, sum) {
            Ok(()) => {}
            Err(_) => return Err(ChallengeFault::Forged),
        }
        let Some(hello) = hello_in(body) else {
            return Ok(Word::Other);
        };
        if machine_of(hello.party) != machine {
            return Err(ChallengeFault::OtherMachine);
        }
        Ok(Word::Hello(Proved {
            guard,
            hello,
            sum: *sum,
            ends,
        }))
    }
}

impl Answering {
    /// Hears what the machine says first, by which it proves that it has the key.
    pub(crate) fn hear(self, body: &[u8], sum: &[u8; SUM]) -> Result<Word, ChallengeFault>
        ensures says { IfOk result (λ word. Says word body.now sum.now) }
        ensures summed { OnOk result (sum.now ≡ sum_of self.answered.key Dialler 0 body.now) }
    {
        let Answering {
            guard,
            challenge,
            answered,
            ..
        } = self;
        let ends = match answered.meet(body, sum) {
            Ok(ends) => ends,
            Err(fault) => return Err(fault),
        };
        let by = challenge.from;
        if let Ok(bytes) = <[u8; VISIT]>::try_from(body) {
            return Ok(Word::Visit(Left {
                guard,
                by,
                bytes,
                sum: *sum,
            }));
        }
        let Some(hello) = hello_in(body) else {
            return Ok(Word::Other);
        };
        if machine_of(hello.party) != by {
            return Err(ChallengeFault::OtherMachine);
        }
        Ok(Word::Hello(Proved {
            guard,
            hello,
            sum: *sum,
            ends,
        }))
    }
}
