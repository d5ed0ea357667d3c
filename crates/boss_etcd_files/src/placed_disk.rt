//! A journal's file, on this machine or in etcd.

ghost use Rattle.std.specs.Prelude.{◌≡◌, []};
ghost use Rattle.boss_outside.specs.Counts.{one_more};
ghost use Rattle.boss_disk.specs.Window.{settled};

use crate::told_cluster::ToldCluster;
use boss_adapters::RealDisk;
use boss_cluster::ClusterDisk;
use boss_disk::Disk;
use boss_outside::Failed;
use std::io::Eprint;
use std::net::{Net, TcpListener, TcpStream};
use std::time::Clock;

/// A file of this machine, or one in etcd, as a disk.
#[derive(Drop)]
pub struct PlacedDisk {
    kept: Kept,
    faults: u64,
}

#[derive(Drop)]
enum Kept {
    File(RealDisk),
    Etcd(ClusterDisk<ToldCluster>),
}

impl PlacedDisk {
    /// A file of this machine.
    pub fn file(disk: RealDisk) -> PlacedDisk
        ensures { result.faults ≡ 0 }
    {
        PlacedDisk {
            kept: Kept::File(disk),
            faults: 0,
        }
    }

    /// One in etcd.
    pub fn etcd(disk: ClusterDisk<ToldCluster>) -> PlacedDisk
        ensures { result.faults ≡ 0 }
    {
        PlacedDisk {
            kept: Kept::Etcd(disk),
            faults: 0,
        }
    }

    /// How many of its calls failed.
    pub fn faults(&self) -> u64
        ensures { result ≡ self.now.faults }
    {
        self.faults
    }

    fn fault(&mut self) -> Failed
        ensures { self.new.faults ≡ one_more self.old.faults }
    {
        self.faults = self.faults.saturating_add(1);
        Failed
    }
}

impl Disk for PlacedDisk {
    ghost tells = { ⊥ };

    ghost reads = { λ disk. [] };

    ghost story = { λ disk. record { past = []; window = settled [] } };

    ghost faults = { λ disk. disk.faults };

    ghost reads_stay = { λ disk told. absurd told };

    fn length(&mut self) -> Result<u64, Failed> {
        let length = match &mut self.kept {
            Kept::File(disk) => disk.length(),
            Kept::Etcd(disk) => disk.length(),
        };
        match length {
            Ok(length) => Ok(length),
            Err(Failed) => Err(self.fault()),
        }
    }

    fn read_at(&mut self, at: u64, into: &mut [u8]) -> Result<(), Failed> {
        let read = match &mut self.kept {
            Kept::File(disk) => disk.read_at(at, into),
            Kept::Etcd(disk) => disk.read_at(at, into),
        };
        match read {
            Ok(()) => Ok(()),
            Err(Failed) => Err(self.fault()),
        }
    }

    fn write_at(&mut self, at: u64, bytes: &[u8]) -> Result<(), Failed> {
        let written = match &mut self.kept {
            Kept::File(disk) => disk.write_at(at, bytes),
            Kept::Etcd(disk) => disk.write_at(at, bytes),
        };
        match written {
            Ok(()) => Ok(()),
            Err(Failed) => Err(self.fault()),
        }
    }

    fn cut(&mut self, size: u64) -> Result<(), Failed> {
        let cut = match &mut self.kept {
            Kept::File(disk) => disk.cut(size),
            Kept::Etcd(disk) => disk.cut(size),
        };
        match cut {
            Ok(()) => Ok(()),
            Err(Failed) => Err(self.fault()),
        }
    }

    fn sync(&mut self) -> Result<(), Failed> {
        let synced = match &mut self.kept {
            Kept::File(disk) => disk.sync(),
            Kept::Etcd(disk) => disk.sync(),
        };
        match synced {
            Ok(()) => Ok(()),
            Err(Failed) => Err(self.fault()),
        }
    }

    fn write_whole(&mut self, at: u64, bytes: &[u8]) -> Result<bool, Failed> {
        let written = match &mut self.kept {
            Kept::File(disk) => disk.write_whole(at, bytes),
            Kept::Etcd(disk) => disk.write_whole(at, bytes),
        };
        match written {
            Ok(done) => Ok(done),
            Err(Failed) => Err(self.fault()),
        }
    }
}
