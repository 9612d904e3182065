//! A store in a file of 16 bytes.

ghost use Rattle.std.specs.Prelude.{◌≡◌, ◌≤◌, ◌<◌, ◌↔◌, ◌⊎◌, [], ◌∷◌, IfOk, IfSome, IsTrue, MatchOption, MatchResult};
ghost use Rattle.std.specs.Prelude.{true, false, length, OnOk, OnErr};
ghost use Rattle.std.specs.Io.KnownBytes.{Consumes, IsAtEnd};
ghost use Rattle.io_model.specs.Streams.{Failed};
ghost use Rattle.vr_threads.specs.Keeping.{stored_bytes, stored_from, unstarted, IsFileOf, IsOneOf, MayHold, Rose};
ghost use Rattle.vr_threads.specs.Keeping.{Writes};

use crate::starting::Starts;
use byteorder::{BigEndian, ByteOrder};
use io_model::{Counted, CountedRead, DeviceFault};
use std::alloc::{AllocError, Global};
use std::fs::OpenFile;
use std::io::{ErrorKind, Write};
use std::rt::Files;
use std::{fs, io};
use vr_model::Stored;
use vr_replica::{StoreFault, ViewStore};

const LENGTH: usize = 16;

/// What a file holds that no start has made.
const UNSTARTED: Stored = Stored { view: 0, starts: 0 };

/// What the file may hold.
#[derive(Clone, Copy, Debug, PartialEq, Eq)]
pub(crate) enum Held {
    /// Before the first load: whatever an earlier run left there.
    Unknown,
    /// After a load or a write.
    One(Stored),
    /// After a write that failed: what was there, or what was written.
    OneOf(Stored, Stored),
}

impl Held {
    /// Whether the file may hold this: a view is kept only after a start.
    fn has(self, stored: Stored) -> bool
        ensures { IsTrue result ↔ MayHold self stored }
    {
        if stored.starts == 0 && stored.view != 0 {
            return false;
        }
        match self {
            Held::Unknown => true,
            Held::One(one) => stored == one,
            Held::OneOf(one, other) => stored == one || stored == other,
        }
    }

    /// What was written last, where a start was counted by then: if the file isn't there now, somebody took it away.
    fn last(self) -> Option<Stored>
        ensures { MatchOption result (MayHold self unstarted)
            (λ last. IsOneOf self last × (MayHold self unstarted → ⊥)) }
    {
        if self.has(UNSTARTED) {
            return None;
        }
        match self {
            Held::Unknown => None,
            Held::One(last) | Held::OneOf(_, last) => Some(last),
        }
    }
}

/// Stable storage of a replica: its view and its starts, in a file. They are written beside it, flushed, and renamed.
/// The store counts its failures, and the starts and saves that were written. A replica that starts again is handed the
/// store that it had: another one would not know what the file may hold. A file that was taken away meanwhile is put
/// back by the next load or start, once there is a directory for it.
#[derive(Drop)]
pub struct FileStore<R: Files + Drop> {
    rt: R,
    directory: String,
    path: String,
    beside: String,
    held: Held,
    failures: u64,
    writes: u64,
}

/// The bytes of a file that keeps this.
fn spelt(stored: Stored) -> [u8; LENGTH]
    ensures { result ≡ stored_bytes stored }
{
    let mut bytes = [0u8; LENGTH];
    BigEndian::write_u64(&mut bytes[0..8], stored.view);
    BigEndian::write_u64(&mut bytes[8..16], stored.starts);
    bytes
}

/// What these bytes of a file say.
fn read_back(bytes: &[u8; LENGTH]) -> Stored
    ensures { result ≡ stored_from bytes.now }
{
    Stored {
        view: BigEndian::read_u64(bytes.as_slice()),
        starts: BigEndian::read_u64(&bytes[8..]),
    }
}

/// The next byte of a file; none at its end.
fn next_byte<F: CountedRead>(file: &mut F) -> Result<Option<u8>, DeviceFault>
    ensures byte { IfOk result (λ next. MatchOption next (IsAtEnd (F.left file.old))
        (λ byte. Consumes (F.left file.old) (F.left file.new) (byte ∷ []))) }
    ensures device { OnErr result (Failed (F.faults file.old) (F.faults file.new)) }
    ensures counts { F.faults file.old ≤ F.faults file.new }
{
    let mut byte = [0u8; 1];
    if file.read(&mut byte)? == 0 {
        return Ok(None);
    }
    Ok(Some(byte[0]))
}

/// The next 16 bytes of a file; none where it has fewer.
fn next_bytes<F: CountedRead>(file: &mut F) -> Result<Option<[u8; LENGTH]>, DeviceFault>
    ensures bytes { IfOk result (λ next. MatchOption next (IfSome (F.left file.old) (λ all. length all < 16))
        (λ bytes. Consumes (F.left file.old) (F.left file.new) bytes × (length bytes ≡ 16))) }
    ensures device { OnErr result (Failed (F.faults file.old) (F.faults file.new)) }
    ensures counts { F.faults file.old ≤ F.faults file.new }
{
    let mut bytes = [0u8; LENGTH];
    for k in 0..LENGTH {
        match next_byte(file)? {
            Some(byte) => bytes[k] = byte,
            None => return Ok(None),
        }
    }
    Ok(Some(bytes))
}

/// What a file holds that a start left: so it has 16 bytes, which count a start at least. None where it has others.
#[tactic(auto, using(crate::proofs::Files::unstarted, crate::proofs::Files::longer))]
fn stored_in<F: CountedRead>(file: &mut F) -> Result<Option<Stored>, DeviceFault>
    ensures stored { IfOk result (λ found. IfSome (F.left file.old)
        (λ bytes. MatchOption found ((stored : _) → IsFileOf stored bytes → ⊥) (λ stored. IsFileOf stored bytes))) }
    ensures device { OnErr result (Failed (F.faults file.old) (F.faults file.new)) }
{
    let Some(bytes) = next_bytes(file)? else {
        return Ok(None);
    };
    let stored = read_back(&bytes);
    if stored.starts == 0 {
        return Ok(None);
    }
    match next_byte(file)? {
        Some(_) => Ok(None),
        None => Ok(Some(stored)),
    }
}

impl<R: Files + Drop> FileStore<R> {
    /// The store of a replica, in a directory that is there.
    pub fn new(
        rt: R,
        alloc: Global,
        directory: &str,
        replica: u8,
    ) -> Result<FileStore<R>, AllocError> {
        Ok(FileStore {
            rt,
            directory: format!(in alloc; "{directory}")?,
            path: format!(in alloc; "{directory}/replica-{replica}")?,
            beside: format!(in alloc; "{directory}/replica-{replica}.new")?,
            held: Held::Unknown,
            failures: 0,
            writes: 0,
        })
    }

    /// The path of its file, which is made by the first start.
    pub fn path(&self) -> &str {
        self.path.as_str()
    }

    /// Removes its file, as far as that can be done, where its replica never served.
    pub fn remove(self) {
        let _ = fs::remove_file(&self.rt, self.beside.as_str());
        let _ = fs::remove_file(&self.rt, self.path.as_str());
    }

    /// What the file holds. One that isn't there is put back, or holds no start.
    fn read(&self) -> Result<Stored, StoreFault> {
        match fs::open(&self.rt, self.path.as_str()) {
            Ok(file) => match stored_in(&mut Counted::new(file)) {
                Ok(Some(stored)) => Ok(stored),
                _ => Err(StoreFault),
            },
            Err(error) if error.kind() == ErrorKind::NotFound => self.put_back(),
            Err(_) => Err(StoreFault),
        }
    }

    /// What a file holds that isn't there: what was written last, which is written anew; or no start, where none was
    /// counted yet.
    fn put_back(&self) -> Result<Stored, StoreFault>
        ensures { IfOk result (λ stored. (stored ≡ unstarted) ⊎ IsOneOf self.now.held stored) }
    {
        let Some(last) = self.held.last() else {
            return Ok(UNSTARTED);
        };
        if self.write(last).is_err() {
            return Err(StoreFault);
        }
        Ok(last)
    }

    /// Writes this to a new file beside the file, flushes it, and puts it in the file's place.
    fn write(&self, stored: Stored) -> io::Result<()> {
        self.clear_beside()?;
        {
            let mut file = fs::File::create_new(&self.rt, self.beside.as_str())?;
            file.write_all(spelt(stored).as_slice())?;
            file.sync_all()?;
        }
        fs::rename(&self.rt, self.beside.as_str(), self.path.as_str())?;
        fs::open(&self.rt, self.directory.as_str())?.sync_all()
    }

    /// Takes away what stands beside the file: a link that was put there leads to another file, which stays as it is.
    fn clear_beside(&self) -> io::Result<()> {
        match fs::remove_file(&self.rt, self.beside.as_str()) {
            Err(error) if error.kind() != ErrorKind::NotFound => Err(error),
            _ => Ok(()),
        }
    }

    /// Writes this over what was found in the file.
    fn keep(&mut self, found: Stored, stored: Stored) -> Result<(), StoreFault>
        ensures gives { MatchResult result (λ _. Writes found stored true self.new.held)
            (λ _. Writes found stored false self.new.held) }
        ensures device { OnErr result (Failed self.old.failures self.new.failures) }
        ensures counts { self.old.failures ≤ self.new.failures }
        ensures wrote { OnOk result (Rose self.old.writes self.new.writes) }
    {
        if self.write(stored).is_err() {
            self.held = Held::OneOf(found, stored);
            return Err(self.fail());
        }
        self.writes = self.writes.saturating_add(1);
        self.held = Held::One(stored);
        Ok(())
    }

    /// Counts a failure.
    fn fail(&mut self) -> StoreFault
        ensures device { Failed self.old.failures self.new.failures }
        ensures counts { self.old.failures ≤ self.new.failures }
        ensures held { self.new.held ≡ self.old.held }
        ensures writes { self.new.writes ≡ self.old.writes }
    {
        self.failures = self.failures.saturating_add(1);
        StoreFault
    }
}

impl<R: Files + Drop> ViewStore for FileStore<R> {
    ghost use Rattle.vr_threads.specs.Keeping.{Loads, Saves, Rose};

    ghost load_gives = { λ s found t. Loads s.held found t.held × (t.writes ≡ s.writes) };

    ghost save_gives = { λ s view made t. Saves s.held view made t.held × (IsTrue made → Rose s.writes t.writes) };

    ghost faults = { λ s. s.failures };

    fn load(&mut self) -> Result<Stored, StoreFault> {
        match self.read() {
            Ok(stored) if self.held.has(stored) => {
                self.held = Held::One(stored);
                Ok(stored)
            }
            _ => Err(self.fail()),
        }
    }

    fn save(&mut self, view: u64) -> Result<(), StoreFault> {
        match self.held {
            Held::One(found) if found.starts > 0 => self.keep(
                found,
                Stored {
                    view,
                    starts: found.starts,
                },
            ),
            Held::Unknown | Held::One(_) | Held::OneOf(_, _) => Err(self.fail()),
        }
    }

    fn faults(&self) -> u64 {
        self.failures
    }
}

impl<R: Files + Drop> Starts for FileStore<R> {
    ghost use Rattle.std.specs.Prelude.{IfSome};
    ghost use Rattle.vr_threads.specs.Keeping.{CountsStart, Rose};

    ghost begin_gives = { λ s stored t. CountsStart s.held stored t.held
        × IfSome stored (λ _. Rose s.writes t.writes) };

    fn begin(&mut self) -> Result<Stored, StoreFault> {
        let found = self.load()?;
        if found.starts == u64::MAX {
            return Err(self.fail());
        }
        let stored = Stored {
            view: found.view,
            starts: found.starts + 1,
        };
        self.keep(found, stored)?;
        Ok(stored)
    }
}
