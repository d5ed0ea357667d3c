//! The files of this machine, and journals in etcd.

ghost use Rattle.std.specs.Prelude.{◌≡◌, [], None, IsErr, IfOk};
ghost use Rattle.boss_outside.specs.Counts.{one_more};
ghost use Rattle.boss_files.specs.Files.{FileCause};

use crate::placed_disk::PlacedDisk;
use crate::placing::{open_placed, say_wrong};
use boss_adapters::RealFiles;
use boss_files::{FileBytes, FileFault, Files};
use boss_places::{is_place, read_place};
use std::alloc::Global;
use std::io::Eprint;
use std::net::{Net, TcpListener, TcpStream};
use std::time::Clock;

/// The files of this machine, each under its name, but for a journal whose word begins with `etcd:`, which is kept there. A call that fails
/// says why on the standard error.
#[derive(Drop)]
pub struct PlacedFiles {
    rt: HostRuntime,
    files: RealFiles,
    /// A disk that was opened in etcd has a head there.
    has_head: bool,
    faults: u64,
}

impl PlacedFiles {
    /// These files of this machine, and journals in etcd, to whose members `rt` connects. No call has failed yet.
    pub fn new(files: RealFiles, rt: HostRuntime) -> PlacedFiles
        ensures { result.faults ≡ 0 }
    {
        PlacedFiles {
            rt,
            files,
            has_head: false,
            faults: 0,
        }
    }

    /// Whether any of the disks that were opened was there.
    pub fn has_disk(&self) -> bool {
        self.has_head || self.files.has_disk()
    }

    fn count_fault(&mut self)
        ensures { self.new.faults ≡ one_more self.old.faults }
    {
        self.faults = self.faults.saturating_add(1);
    }

    /// What a call answers that failed so. A fault is counted.
    fn fail<T>(&mut self, fault: FileFault) -> Result<T, FileFault>
        ensures fails { IsErr result }
        ensures cause { FileCause self.old.faults self.new.faults result }
    {
        if let FileFault::Failed = fault {
            self.count_fault();
        }
        Err(fault)
    }

    /// A file of this machine.
    fn open_file(&mut self, alloc: Global, name: &str) -> Result<PlacedDisk, FileFault>
        ensures faults { self.new.faults ≡ self.old.faults }
        ensures fresh { IfOk result (λ disk. disk.faults ≡ 0) }
    {
        let disk = self.files.disk(alloc, name)?;
        Ok(PlacedDisk::file(disk))
    }

    /// One in etcd.
    fn open_place(&mut self, alloc: Global, word: &str) -> Result<PlacedDisk, FileFault>
        ensures faults { self.new.faults ≡ self.old.faults }
        ensures fresh { IfOk result (λ disk. disk.faults ≡ 0) }
    {
        let Some(place) = read_place(alloc, word.as_bytes())? else {
            say_wrong(&self.rt, word);
            return Err(FileFault::Failed);
        };
        let placed = open_placed(alloc, self.rt, word, place)?;
        self.has_head = self.has_head || placed.has_head;
        Ok(PlacedDisk::etcd(placed.disk))
    }
}

impl Files for PlacedFiles {
    type Store = PlacedDisk;

    ghost tells = { ⊥ };

    ghost holds = { λ files name. None };

    ghost past = { λ files name. [] };

    ghost whole = { λ files. ⊥ };

    ghost asked = { λ files. [] };

    ghost faults = { λ files. files.faults };

    fn read(&mut self, alloc: Global, name: &str, limit: u64) -> Result<FileBytes, FileFault> {
        match self.files.read(alloc, name, limit) {
            Ok(bytes) => Ok(bytes),
            Err(fault) => self.fail(fault),
        }
    }

    fn disk(&mut self, alloc: Global, name: &str) -> Result<PlacedDisk, FileFault> {
        let opened = if is_place(name.as_bytes()) {
            self.open_place(alloc, name)
        } else {
            self.open_file(alloc, name)
        };
        match opened {
            Ok(disk) => Ok(disk),
            Err(fault) => self.fail(fault),
        }
    }

    fn close(&mut self, _name: &str, store: PlacedDisk) {
        if store.faults() > 0 {
            self.count_fault();
        }
    }
}
