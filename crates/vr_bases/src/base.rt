//! A base as bytes.

ghost use Rattle.std.specs.Prelude.{◌≡◌, ◌<◌, ◌≤◌, ◌↔◌, ℕ, Err, IfOk, IsTrue, OnErr, OnOk, Some, drop, length};
ghost use Rattle.vr_bases.specs.Spelling.{FitsMarks, IsBase, IsNoBase, base_bytes, is_read, told, told_by};
ghost use Rattle.vr_bases.specs.declared.fault.BaseFault.TheVariants as faults;
ghost use Rattle.vr_kept.specs.Inputs.{IsKept};
ghost use Rattle.vr_kept.specs.declared.fault.KeepFault.TheVariants.{NotKept};
ghost use Rattle.vr_model.specs.Checkpoints.{KeptLog};
ghost use Rattle.vr_pausing.specs.declared.marking.Marks.{Marks as KeptMarks};

use crate::fault::BaseFault;
use crate::marks::{
    MARKS_LENGTH, acknowledged_in, is_set_at, number_at, spell_marks, start_view_changes_in,
};
use std::alloc::{AllocError, Global};
use vr_kept::{KeepFault, read_input, what_was_taken_up_is_read};
use vr_model::{Body, Event, Log, Message, Party};
use vr_pausing::Marks;

/// What a normal replica is at some moment.
#[derive(Drop)]
pub struct Base {
    pub marks: Marks,
    pub log: Log,
}

/// What a DOVIEWCHANGE says of who sends it.
#[derive(Drop)]
struct Told {
    view: u64,
    last_normal_view: u64,
    commit_number: u64,
    log: Log,
}

/// The message that says what the marks in front don't.
fn tells(marks: &Marks, log: Log) -> Event
    ensures { result ≡ Event.Message (told marks.now log) }
{
    Event::Message(Message {
        from: Party::Replica(0),
        to: Party::Replica(0),
        body: Body::DoViewChange {
            view: marks.view,
            last_normal_view: marks.last_normal_view,
            commit_number: marks.commit_number,
            log,
        },
    })
}

/// The bytes of a base. `NotKept` is answered where its log has no frame.
pub fn spell(alloc: Global, marks: &Marks, log: Log) -> Result<Vec<u8>, KeepFault>
    ensures ok { IfOk result (λ bytes. IsBase bytes.items marks.now log) }
    ensures none { result ≡ Err NotKept → IsKept (Event.Message (told marks.now log)) → ⊥ }
{
    let event = tells(marks, log);
    let framed = vr_kept::spell(alloc, &event)?;
    let mut bytes = spell_marks(alloc, marks)?;
    bytes.extend_from_slice(framed.as_slice())?;
    Ok(bytes)
}

/// What a DOVIEWCHANGE says, if this is one.
fn told_in(event: Option<Event>) -> Option<Told>
    ensures { (view last commit : ℕ) (log : KeptLog) → event ≡ Some (Event.Message (told_by view last commit log))
        → result ≡ Some (record { view = view; last_normal_view = last; commit_number = commit; log = log }) }
{
    match event {
        Some(
            Event::Message(
                Message {
                    body: Body::DoViewChange {
                        view,
                        last_normal_view,
                        commit_number,
                        log,
                    },
                    ..
                },
            ),
        ) => Some(Told {
            view,
            last_normal_view,
            commit_number,
            log,
        }),
        _ => None,
    }
}

/// The base that these bytes would be, with what stands behind the marks in front.
fn with_marks(bytes: &[u8], told: Told) -> Base
    requires within { 136 ≤ length bytes.now }
    ensures { result ≡ is_read bytes.now told.view told.last_normal_view told.commit_number told.log }
{
    Base {
        marks: Marks {
            view: told.view,
            commit_number: told.commit_number,
            last_normal_view: told.last_normal_view,
            stored_view: number_at(bytes, 0),
            acknowledged: acknowledged_in(bytes),
            start_view_changes: start_view_changes_in(bytes),
            sent_do_view_change: is_set_at(bytes, 9),
            nonce: number_at(bytes, 1),
        },
        log: told.log,
    }
}

/// The base that these bytes would be, if they were one.
fn base_in(alloc: Global, bytes: &[u8]) -> Result<Option<Base>, AllocError>
    requires within { 136 ≤ length bytes.now }
    ensures { IfOk result (λ found. (m : KeptMarks) (log : KeptLog) → FitsMarks m → IsBase bytes.now m log
        → found ≡ Some (record { marks = m; log = log })) }
{
    what_was_taken_up_is_read();
    let (_, rest) = bytes.split_at(MARKS_LENGTH);
    match told_in(read_input(alloc, rest)?) {
        Some(told) => Ok(Some(with_marks(bytes, told))),
        None => Ok(None),
    }
}

/// Whether this is the base whose bytes these are.
fn is_base(alloc: Global, base: &Base, bytes: &[u8]) -> Result<bool, AllocError>
    ensures { IfOk result (λ same. IsTrue same ↔ IsBase bytes.now base.now.marks base.now.log) }
{
    let marks = base.marks;
    match spell(alloc, &marks, base.log.copy(alloc)?) {
        Ok(spelled) => Ok(spelled.as_slice() == bytes),
        Err(KeepFault::NotKept) => Ok(false),
        Err(KeepFault::Memory) => Err(AllocError),
    }
}

/// The marks and the log of which these bytes are the base. But for want of memory it fails where they are of none:
/// `Torn` where they are fewer than the marks have, else `Foreign`.
pub fn read(alloc: Global, bytes: &[u8]) -> Result<Base, BaseFault>
    ensures ok { IfOk result (λ base. IsBase bytes.now base.marks base.log) }
    ensures none { OnErr result ((result ≡ Err faults.Memory → ⊥) → IsNoBase bytes.now) }
    ensures torn { result ≡ Err faults.Torn ↔ (length bytes.now < 136) }
{
    if bytes.len() < MARKS_LENGTH {
        return Err(BaseFault::Torn);
    }
    let Some(base) = base_in(alloc, bytes)? else {
        return Err(BaseFault::Foreign);
    };
    if is_base(alloc, &base, bytes)? {
        Ok(base)
    } else {
        Err(BaseFault::Foreign)
    }
}
