//! A file of this machine, as a disk.

ghost use Rattle.std.specs.Prelude.{◌≡◌, ◌^◌, ◌+◌, ◌<◌, ◌≤◌, [], length, false, is_err, IfOk, OnOk, IsErr, IsTrue};
ghost use Rattle.std.specs.Option.{ForSome};
ghost use Rattle.boss_outside.specs.Counts.{HasCause, one_more};
ghost use Rattle.boss_disk.specs.Window.{settled};

use crate::ahead::Ahead;
use crate::aside::say_failed;
use crate::holder::held;
use boss_disk::{Disk, MOST};
use boss_outside::Failed;
use std::alloc::Global;
use std::fs::{self, File, OpenOptions, TryLockError};
use std::io::{self, ErrorKind};
use std::os::unix::fs::{FileExt, OpenOptionsExt};
use std::path::Path;

/// What could not be done where a call failed.
const READ: &str = "read";

/// The same of a call that writes, cuts or syncs.
const WRITTEN: &str = "written, so nothing is kept from here on";

/// A file of this machine. Where there is none under its name, the first write makes it, and no other call does: for its owner and its
/// group alone, and never through a symbolic link that leads nowhere. One that is there is
/// opened to be read, and to be written only at the first write, cut or sync: who looks at a file needs no leave to change it, and who
/// means to change it finds out at the sync with which it begins.
///
/// From then on the disk holds the file's lock, which goes with it or with the process, so no two programs write one file. A lock that
/// another holds is a fault. The first fault is said at once on the standard error, with the system's reason.
#[derive(Drop)]
pub struct RealDisk {
    rt: HostRuntime,
    name: String,
    file: Option<File>,
    /// The file is opened to be written too.
    is_writable: bool,
    /// The folder has the name for good.
    is_named: bool,
    /// A sync failed. The system may have forgotten what it could not keep, so that a later sync would tell nothing.
    is_lost: bool,
    /// What was read ahead. It is forgotten before the file is written, cut or opened anew.
    ahead: Ahead,
    /// The number of bytes, where the file is locked, and was not written or cut since the system was asked for it.
    known: Option<u64>,
    faults: u64,
    ghost few: { ForSome known (λ size. size ≤ 2 ^ 62) },
}

impl RealDisk {
    /// The file under this name. Anything else that stands there is refused.
    pub fn open(rt: HostRuntime, alloc: Global, name: &str) -> io::Result<RealDisk>
        ensures { IfOk result (λ disk. ⟦<RealDisk as Disk>⟧.faults disk ≡ 0) }
    {
        let file = if is_missing(&rt, name)? {
            None
        } else {
            Some(open_file(&rt, name, Purpose::Read)?)
        };
        Ok(RealDisk {
            rt,
            name: String::from_str(alloc, name)?,
            file,
            is_writable: false,
            is_named: false,
            is_lost: false,
            ahead: Ahead::new(alloc),
            known: None,
            faults: 0,
        })
    }

    /// Whether there is a file under its name.
    pub fn is_there(&self) -> bool {
        self.file.is_some()
    }

    /// How many of its calls failed.
    pub fn faults(&self) -> u64
        ensures { result ≡ ⟦<RealDisk as Disk>⟧.faults self.now }
    {
        self.faults
    }

    /// Counts a fault of a call for this reason. The first is said.
    fn fault(&mut self, call: &str, reason: io::Error) -> Failed
        ensures { self.new ≡ record self.old { faults = one_more self.old.faults } }
    {
        if self.faults == 0 {
            say_failed(&self.rt, "journal", self.name.as_str(), call, reason);
        }
        self.faults = self.faults.saturating_add(1);
        Failed
    }

    /// The number of bytes. A file that is not there has none. The system is asked each time where the file is only looked at,
    /// and where it is locked, so that nobody else changes it, once until it is written or cut.
    fn size(&mut self) -> io::Result<u64>
        ensures within { IfOk result (λ size. size ≤ 2 ^ 62) }
        ensures faults { self.new.faults ≡ self.old.faults }
    {
        if let Some(size) = self.known {
            return Ok(size);
        }
        let Some(file) = &self.file else {
            return Ok(0);
        };
        let size = file.metadata()?.len();
        if size > MOST {
            return Err(ErrorKind::FileTooLarge.into());
        }
        if self.is_writable {
            self.known = Some(size);
        } else {
            self.ahead.forget_past(size);
        }
        Ok(size)
    }

    /// Fills the slice from this place on.
    fn fill(&mut self, at: u64, into: &mut [u8]) -> io::Result<()>
        ensures { self.new.faults ≡ self.old.faults }
    {
        match &self.file {
            Some(file) => self.ahead.fill(file, at, into),
            None if into.is_empty() => Ok(()),
            None => Err(ErrorKind::UnexpectedEof.into()),
        }
    }

    /// Forgets what was read of the file, and its length: it is to be changed, or may have been while it was not locked.
    fn forget(&mut self)
        ensures { self.new.faults ≡ self.old.faults }
    {
        self.ahead.forget();
        self.known = None;
    }

    /// Opens the file to be written too, where there is one.
    fn open_to_write(&mut self) -> io::Result<()>
        ensures { self.new.faults ≡ self.old.faults }
    {
        if self.file.is_none() || self.is_writable {
            return Ok(());
        }
        self.file = Some(open_file(&self.rt, self.name.as_str(), Purpose::Write)?);
        self.is_writable = true;
        self.forget();
        Ok(())
    }

    /// Makes the file, where there is none.
    fn make(&mut self) -> io::Result<()>
        ensures { self.new.faults ≡ self.old.faults }
    {
        if self.file.is_some() {
            return self.open_to_write();
        }
        let file = open_file(&self.rt, self.name.as_str(), Purpose::Make)?;
        if file.metadata()?.len() > 0 {
            let reason = "another program made it meanwhile";
            return Err(io::Error::new(ErrorKind::AlreadyExists, reason));
        }
        self.file = Some(file);
        self.is_writable = true;
        Ok(())
    }

    /// Puts all these bytes from this place on.
    fn put(&mut self, at: u64, bytes: &[u8]) -> io::Result<()>
        ensures limit { 2 ^ 62 < at + length bytes.now → IsErr result }
        ensures faults { self.new.faults ≡ self.old.faults }
    {
        let size = bytes.len() as u64;
        if size > MOST || at > MOST - size {
            return Err(ErrorKind::FileTooLarge.into());
        }
        self.make()?;
        self.forget();
        match &self.file {
            Some(file) => file.write_all_at(bytes, at),
            None => Err(ErrorKind::NotFound.into()),
        }
    }

    /// Drops all bytes from this place on. No file grows.
    fn drop_from(&mut self, size: u64) -> io::Result<()>
        ensures { self.new.faults ≡ self.old.faults }
    {
        if self.size()? <= size {
            return Ok(());
        }
        self.open_to_write()?;
        self.forget();
        match &self.file {
            Some(file) => file.set_len(size),
            None => Ok(()),
        }
    }

    /// Has the system keep the bytes and the length, and once also the name in its folder.
    fn keep(&mut self) -> io::Result<()>
        ensures { self.new.faults ≡ self.old.faults }
    {
        self.open_to_write()?;
        let Some(file) = &self.file else {
            return Ok(());
        };
        file.sync_data()?;
        if !self.is_named {
            folder_of(&self.rt, self.name.as_str())?.sync_all()?;
            self.is_named = true;
        }
        Ok(())
    }

    /// The same, and notes where it failed. It fails ever after.
    fn keep_or_lose(&mut self) -> io::Result<()>
        ensures lost { self.new.is_lost ≡ is_err result }
        ensures stays { IsTrue self.old.is_lost → IsErr result }
        ensures faults { self.new.faults ≡ self.old.faults }
    {
        if self.is_lost {
            return Err(ErrorKind::Other.into());
        }
        let kept = self.keep();
        self.is_lost = kept.is_err();
        kept
    }
}

/// Whether nothing stands under a name. It is an error where that can't be told.
fn is_missing(rt: &HostRuntime, name: &str) -> io::Result<bool> {
    match fs::metadata(rt, name) {
        Ok(found) if found.is_file() => Ok(false),
        Ok(_) => Err(no_file()),
        Err(error) if error.kind() == ErrorKind::NotFound => Ok(true),
        Err(error) => Err(error),
    }
}

/// The error of a name under which something else than a file stands.
fn no_file() -> io::Error {
    io::Error::new(ErrorKind::InvalidInput, "it is not a plain file")
}

/// What a file that is made allows, before the system takes off what the process is not to give: all to its owner but to run it, its
/// group to read it, and others nothing.
const NEW_FILE: u32 = 0o640;

/// What a file is opened for, besides reading.
enum Purpose {
    Read,
    Write,
    Make,
}

/// The file under a name. It is made only for that purpose, where nothing stands there, not even a link, and locked where it may be
/// written.
fn open_file(rt: &HostRuntime, name: &str, purpose: Purpose) -> io::Result<File> {
    let (may_write, may_make) = match purpose {
        Purpose::Read => (false, false),
        Purpose::Write => (true, false),
        Purpose::Make => (true, true),
    };
    let mut how = OpenOptions::new();
    how.read(true)
        .write(may_write)
        .create_new(may_make)
        .mode(NEW_FILE);
    let file = how.open(rt, name)?;
    if !file.metadata()?.is_file() {
        return Err(no_file());
    }
    if may_write {
        lock(rt, &file)?;
    }
    Ok(file)
}

/// Takes a file's lock for as long as it stays open, unless another opening of it has it.
fn lock(rt: &HostRuntime, file: &File) -> io::Result<()> {
    match file.try_lock() {
        Ok(()) => Ok(()),
        Err(TryLockError::WouldBlock) => Err(held(rt, file)),
        Err(TryLockError::Error(reason)) => Err(reason),
    }
}

/// The folder in which a name stands.
fn folder_of(rt: &HostRuntime, name: &str) -> io::Result<File> {
    let folder = match Path::new(name).parent() {
        Some(folder) if !folder.as_str().is_empty() => folder,
        _ => Path::new("."),
    };
    File::open(rt, folder)
}

impl Disk for RealDisk {
    ghost tells = { ⊥ };

    ghost reads = { λ disk. [] };

    ghost story = { λ disk. record { past = []; window = settled [] } };

    ghost faults = { λ disk. disk.faults };

    ghost reads_stay = { λ disk told. absurd told };

    fn length(&mut self) -> Result<u64, Failed> {
        match self.size() {
            Ok(size) => Ok(size),
            Err(reason) => Err(self.fault(READ, reason)),
        }
    }

    fn read_at(&mut self, at: u64, into: &mut [u8]) -> Result<(), Failed> {
        match self.fill(at, into) {
            Ok(()) => Ok(()),
            Err(reason) => Err(self.fault(READ, reason)),
        }
    }

    fn write_at(&mut self, at: u64, bytes: &[u8]) -> Result<(), Failed> {
        match self.put(at, bytes) {
            Ok(()) => Ok(()),
            Err(reason) => Err(self.fault(WRITTEN, reason)),
        }
    }

    fn cut(&mut self, size: u64) -> Result<(), Failed> {
        match self.drop_from(size) {
            Ok(()) => Ok(()),
            Err(reason) => Err(self.fault(WRITTEN, reason)),
        }
    }

    // Once a sync has failed, no later one succeeds.
    fn sync(&mut self) -> Result<(), Failed>
        ensures cause { HasCause self.old.faults self.new.faults result }
        ensures kept { OnOk result (self.new.is_lost ≡ false) }
        ensures lost { IsTrue self.old.is_lost → IsErr result }
    {
        match self.keep_or_lose() {
            Ok(()) => Ok(()),
            Err(reason) => Err(self.fault(WRITTEN, reason)),
        }
    }
}
