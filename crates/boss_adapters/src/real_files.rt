//! The files of this machine, under their paths.

ghost use Rattle.std.specs.Prelude.{◌≡◌, [], None, IsErr};
ghost use Rattle.boss_outside.specs.Counts.{one_more};
ghost use Rattle.boss_files.specs.Files.{FileCause};

use crate::RealDisk;
use crate::aside::say_failed;
use boss_files::{FileBytes, FileFault, Files};
use boss_model::Items;
use std::alloc::Global;
use std::fs::File;
use std::io::{self, ErrorKind, Read};

/// The files of this machine: a catalogue, which is read whole, and a journal's two, which are opened as disks. A call that fails says
/// why on the standard error.
#[derive(Drop)]
pub struct RealFiles {
    rt: HostRuntime,
    /// A disk that was opened has a file.
    has_disk: bool,
    faults: u64,
}

impl RealFiles {
    /// The files of this machine, of which no call has failed yet.
    pub fn new(rt: HostRuntime) -> RealFiles
        ensures { ⟦<RealFiles as Files>⟧.faults result ≡ 0 }
    {
        RealFiles {
            rt,
            has_disk: false,
            faults: 0,
        }
    }

    /// Whether any of the disks that were opened has a file.
    pub fn has_disk(&self) -> bool {
        self.has_disk
    }

    /// The bytes of a file, but no more than one beyond the limit, and the length that the system tells of it.
    fn read_front(&self, alloc: Global, name: &str, limit: u64) -> io::Result<(Vec<u8>, u64)> {
        let file = File::open(&self.rt, name)?;
        let told = file.metadata()?.len();
        let mut bytes = Vec::new(alloc);
        file.take(limit.saturating_add(1)).read_to_end(&mut bytes)?;
        Ok((bytes, told))
    }

    /// What a call on a file answers that fails for this reason: want of memory is no fault of the files, and any other is said.
    fn fail<T>(
        &mut self,
        role: &str,
        name: &str,
        call: &str,
        reason: io::Error,
    ) -> Result<T, FileFault>
        ensures fails { IsErr result }
        ensures cause { FileCause self.old.faults self.new.faults result }
    {
        if reason.kind() == ErrorKind::OutOfMemory {
            return Err(FileFault::NoMemory);
        }
        say_failed(&self.rt, role, name, call, reason);
        self.count_fault();
        Err(FileFault::Failed)
    }

    fn count_fault(&mut self)
        ensures { self.new.faults ≡ one_more self.old.faults }
    {
        self.faults = self.faults.saturating_add(1);
    }
}

impl Files for RealFiles {
    type Store = RealDisk;

    ghost tells = { ⊥ };

    ghost holds = { λ files name. None };

    ghost past = { λ files name. [] };

    ghost whole = { λ files. ⊥ };

    ghost asked = { λ files. [] };

    ghost faults = { λ files. files.faults };

    fn read(&mut self, alloc: Global, name: &str, limit: u64) -> Result<FileBytes, FileFault> {
        let (bytes, told) = match self.read_front(alloc, name, limit) {
            Ok(front) => front,
            Err(reason) => return self.fail("file", name, "read", reason),
        };
        let length = bytes.len() as u64;
        if length > limit {
            return Ok(FileBytes::Longer {
                length: length.max(told),
            });
        }
        Ok(FileBytes::Whole(Items::from_vec(bytes)))
    }

    fn disk(&mut self, alloc: Global, name: &str) -> Result<RealDisk, FileFault> {
        match RealDisk::open(self.rt, alloc, name) {
            Ok(store) => {
                self.has_disk = self.has_disk || store.is_there();
                Ok(store)
            }
            Err(reason) => self.fail("journal", name, "opened", reason),
        }
    }

    fn close(&mut self, _name: &str, store: RealDisk) {
        if store.faults() > 0 {
            self.count_fault();
        }
    }
}
