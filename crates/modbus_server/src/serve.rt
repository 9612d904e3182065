//! A session: requests come in, and their replies go out in order.
ghost use Rattle.std.specs.Prelude.{◌≡◌, ◌≤◌, [], length, OnOk, OnErr, MatchResult};
ghost use Rattle.std.specs.List.{AllByRecursion};
ghost use Rattle.io_model.specs.Streams.{Failed, IsRest};
ghost use Rattle.modbus_wire.specs.Frames.{IsFramed};
ghost use Rattle.modbus_server.specs.Sessions.{images_of, Answers, Adds, AnswersSome, Serves, Stops, Talks};

use crate::counting::count_reply;
use crate::outputs::Outputs;
use io_image::{Ages, Naming, Staging};
use io_model::{CountedRead, CountedWrite, write_all};
use modbus_replies::permitted_reply;
use modbus_wire::{Adu, HeaderFault, Session, SessionFault, know_any_pieces};
use plc_host::{Host, Requests, Traffic};
use std::alloc::AllocError;
use std::sync::Wait;

/// So many bytes are read at once.
const PIECE: usize = 4096;

/// How a session ended.
#[derive(Clone, Copy, PartialEq, Eq)]
pub enum SessionEnd {
    /// The reader came to its end.
    Closed,
    /// The stream met a fault; the requests before it are answered.
    Header(HeaderFault),
    /// The reader or the writer failed.
    Device,
    /// Memory ran out.
    Memory,
}

fn answer<S: Staging, J: Naming, A: Ages>(
    request: &Adu,
    staging: &mut S,
    outputs: &mut Outputs<J, A>,
) -> Adu
    requires { IsFramed request.now }
    ensures is { Answers (images_of (S.told staging.old) outputs.old.released outputs.old.limit outputs.old.access) request.now result
        (images_of (S.told staging.new) outputs.new.released outputs.new.limit outputs.new.access) }
    ensures short { length result.pdu ≤ 253 }
{
    let are_stale = outputs.are_stale();
    let view = outputs.released.read();
    Adu {
        transaction: request.transaction,
        unit: request.unit,
        pdu: permitted_reply(
            outputs.access,
            request.pdu.as_slice(),
            staging,
            &view,
            are_stale,
        ),
    }
}

/// Adds the replies to these requests, and counts each.
fn answer_all<S: Staging, J: Naming, A: Ages>(
    requests: &[Adu],
    out: &mut Vec<u8>,
    counts: &mut Requests,
    staging: &mut S,
    outputs: &mut Outputs<J, A>,
) -> Result<(), AllocError>
    requires { AllByRecursion IsFramed requests.now }
    ensures ok { OnOk result
        (Adds (images_of (S.told staging.old) outputs.old.released outputs.old.limit outputs.old.access) requests.now
        out.old.items out.new.items counts.old counts.new (images_of (S.told staging.new) outputs.new.released outputs.new.limit outputs.new.access)) }
    ensures err { OnErr result
        (AnswersSome (images_of (S.told staging.old) outputs.old.released outputs.old.limit outputs.old.access) requests.now
        (images_of (S.told staging.new) outputs.new.released outputs.new.limit outputs.new.access)) }
{
    for request in requests {
        let reply = answer(request, staging, outputs);
        count_reply(counts, request, &reply);
        reply.write_to(out)?;
    }
    Ok(())
}

/// What a session keeps from one piece to the next. The two lists are emptied for each piece, and keep their memory.
#[derive(Drop)]
struct Buffers {
    session: Session,
    requests: Vec<Adu>,
    replies: Vec<u8>,
}

/// Answers each request that is whole with this piece, in one write, and counts them once it went out.
fn serve_piece<W: CountedWrite, S: Staging, J: Naming, A: Ages>(
    piece: &[u8],
    buffers: &mut Buffers,
    traffic: &Traffic,
    writer: &mut W,
    staging: &mut S,
    outputs: &mut Outputs<J, A>,
) -> Result<(), SessionEnd>
    requires { IsRest buffers.old.session }
    ensures served { MatchResult result
        (λ _. Serves buffers.old.session piece.now buffers.new.session (images_of (S.told staging.old) outputs.old.released outputs.old.limit outputs.old.access)
        (images_of (S.told staging.new) outputs.new.released outputs.new.limit outputs.new.access) (W.held writer.old) (W.held writer.new)
        × IsRest buffers.new.session)
        (λ end. Stops end buffers.old.session piece.now (Failed (W.faults writer.old) (W.faults writer.new))
        (images_of (S.told staging.old) outputs.old.released outputs.old.limit outputs.old.access) (images_of (S.told staging.new) outputs.new.released outputs.new.limit outputs.new.access)
        (W.held writer.old) (W.held writer.new)) }
    ensures counts { W.faults writer.old ≤ W.faults writer.new }
{
    let Buffers {
        session,
        requests,
        replies,
    } = buffers;
    requests.clear();
    replies.clear();
    let fed = session.feed(piece, requests);
    let mut counts = Requests::none();
    if answer_all(requests.as_slice(), replies, &mut counts, staging, outputs).is_err() {
        return Err(SessionEnd::Memory);
    }
    if write_all(writer, replies.as_slice()).is_err() {
        return Err(SessionEnd::Device);
    }
    traffic.add_requests(&counts);
    match fed {
        Ok(()) => Ok(()),
        Err(SessionFault::Header(fault)) => Err(SessionEnd::Header(fault)),
        Err(SessionFault::Memory) => Err(SessionEnd::Memory),
    }
}

/// Serves a session to its end. It reads requests in pieces, as they come, and writes the replies in order: those to
/// the requests that a piece makes whole in one write, each by what `outputs` shows when its turn comes, or by exception
/// 4 where it asks for outputs that are stale then, and a write of who may only read by exception 1. Where it ends by `Device`, or for want of memory, a prefix of the
/// replies went out, and requests whose replies didn't may have been done. `traffic` counts the requests that were
/// answered, as they are.
pub fn serve_session<
    H: Wait + Copy,
    R: CountedRead,
    W: CountedWrite,
    S: Staging,
    J: Naming,
    A: Ages,
>(
    host: &Host<H>,
    traffic: &Traffic,
    reader: &mut R,
    writer: &mut W,
    staging: &mut S,
    outputs: &mut Outputs<J, A>,
) -> SessionEnd
    ensures { Talks result (R.left reader.old) (R.left reader.new) (R.faults reader.old) (R.faults reader.new)
        (W.held writer.old) (W.held writer.new) (W.faults writer.old) (W.faults writer.new)
        (images_of (S.told staging.old) outputs.old.released outputs.old.limit outputs.old.access) (images_of (S.told staging.new) outputs.new.released outputs.new.limit outputs.new.access) }
{
    let mut buffers = Buffers {
        session: Session::new(),
        requests: Vec::new(host.alloc),
        replies: Vec::new(host.alloc),
    };
    let mut piece = [0; PIECE];
    know_any_pieces();
    for _ in host.rt.forever() {
        let Ok(count) = reader.read(&mut piece) else {
            return SessionEnd::Device;
        };
        if count == 0 {
            return SessionEnd::Closed;
        }
        let piece = &piece[..count];
        if let Err(end) = serve_piece(piece, &mut buffers, traffic, writer, staging, outputs) {
            return end;
        }
    }
    unreachable!()
}
