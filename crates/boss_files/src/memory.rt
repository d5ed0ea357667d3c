ghost use Rattle.std.specs.Prelude.{◌≡◌, ◌≢◌, ℕ, ◌<◌, ◌||◌, ◌⊎◌, true, false, List, [], ◌∷◌, ◌++◌, Option, Some, Err, IfOk, OnOk, OnErr, IsSome, IsTrue, is_none, is_ok, unwrap_or, option_copied, position, bytes_eq, vec_len, vec_capacity};
ghost use Rattle.boss_outside.specs.Counts.{Joins};
ghost use Rattle.boss_outside.specs.Plan.{new_plan, fails_next, after_call};
ghost use Rattle.boss_disk.specs.Record.{state_of};
ghost use Rattle.boss_disk.specs.Window.{settled};
ghost use Rattle.boss_files.specs.Files.{KeepsLimit, ReadsFile, FileCause, opened, is_failed, windows};
ghost use Rattle.boss_files.specs.Shelf.{ReadsShelf, OpensShelf, bytes_under, past_under, have_distinct_names};

use crate::{FileBytes, FileFault, Files};
use boss_disk::MemoryDisk;
use boss_model::{Items, NoMemory};
use boss_outside::FaultPlan;
use std::alloc::Global;
use std::marker::Model;

/// The number that picks the image of a disk as it is.
const AS_IT_IS: u64 = 1;

/// Files in memory, which note each name that they are asked for, and keep the stores that are given back.
#[derive(Debug, Drop)]
pub struct MemoryFiles {
    alloc: Global,
    files: Vec<(Items<u8>, Items<u8>)>,
    stores: Vec<(Items<u8>, MemoryDisk)>,
    whole: bool,
    asked: Items<Items<u8>>,
    plan: FaultPlan,
}

impl Model for MemoryFiles {
    ghost use Rattle.boss_files.specs.Shelf.{Shelf};

    ghost Value = { Shelf };

    ghost view = { λ s. record { files = s.files.items; stores = s.stores.items; whole = s.whole; asked = s.asked; plan = s.plan } };
}

impl MemoryFiles {
    /// These files, each a name with its bytes, of which the calls with these numbers fail, counted from 1. No name may
    /// stand twice.
    pub fn new(
        alloc: Global,
        contents: Items<(Items<u8>, Items<u8>)>,
        fails: Items<u64>,
    ) -> Result<MemoryFiles, NoMemory>
        requires { IsTrue (have_distinct_names contents) }
        ensures { IfOk result (λ files. files
            ≡ record { files = contents; stores = []; whole = true; asked = []; plan = new_plan fails }) }
    {
        Ok(MemoryFiles {
            alloc,
            files: contents.into_vec(),
            stores: Vec::new(alloc),
            whole: true,
            asked: Items::new(alloc),
            plan: FaultPlan::new(fails),
        })
    }

    /// The names that were asked for so far, in order.
    pub fn asked(&self) -> &[Items<u8>]
        ensures { result.now ≡ self.now.asked }
    {
        self.asked.slice()
    }

    /// The stores that were given back, in order, each under its name, but for those that there was no memory to keep.
    pub fn stores(&self) -> &[(Items<u8>, MemoryDisk)]
        ensures { result.now ≡ self.now.stores }
    {
        self.stores.as_slice()
    }

    /// Whether no store is missing among them.
    pub fn is_whole(&self) -> bool
        ensures { result ≡ self.now.whole }
    {
        self.whole
    }

    /// Notes a name that is asked for.
    fn note(&mut self, alloc: Global, name: &str) -> Result<(), NoMemory>
        ensures noted { OnOk result (self.new ≡ record self.old { asked = self.old.asked ++ name.now ∷ [] }) }
        ensures none { OnErr result (self.new ≡ self.old) }
    {
        let name = Items::from_vec(name.as_bytes().to_vec(alloc)?);
        self.asked.try_push(name)
    }

    /// The bytes of the file under a name.
    pub fn bytes_under(&self, name: &str) -> Option<&[u8]>
        ensures { option_copied result ≡ bytes_under self.now.files name.now }
    {
        let file = self
            .files
            .iter()
            .find(|file| file.0.slice() == name.as_bytes())?;
        Some(file.1.slice())
    }

    /// Adds an empty file under a name.
    fn add(&mut self, alloc: Global, name: &str) -> Result<(), NoMemory>
        ensures added { OnOk result (self.new ≡ record self.old { files = self.old.files ++ (name.now, []) ∷ [] }) }
        ensures none { OnErr result (self.new ≡ self.old) }
    {
        let name = Items::from_vec(name.as_bytes().to_vec(alloc)?);
        self.files.push((name, Items::new(alloc)))?;
        Ok(())
    }

    /// Keeps a store that is given back, where there is memory for it, and gives the bytes that it reads.
    fn keep(&mut self, name: &str, store: MemoryDisk) -> Items<u8>
        ensures bytes { result ≡ (state_of store).bytes }
        ensures kept { (self.new ≡ record self.old { stores = self.old.stores ++ (name.now, store) ∷ [] })
            ⊎ (self.new ≡ record self.old { whole = false }) }
    {
        let Ok((name, bytes)) = copied(self.alloc, name, &store) else {
            return self.leave_out(store);
        };
        if self.stores.reserve(1).is_err() {
            return self.leave_out(store);
        }
        push_in_room(&mut self.stores, (name, store));
        bytes
    }

    /// Leaves out a store that is given back, and gives the bytes that it reads.
    fn leave_out(&mut self, store: MemoryDisk) -> Items<u8>
        ensures bytes { result ≡ (state_of store).bytes }
        ensures left_out { self.new ≡ record self.old { whole = false } }
    {
        self.whole = false;
        store.into_bytes()
    }
}

impl Files for MemoryFiles {
    type Store = MemoryDisk;

    ghost tells = { Unit {0} };

    ghost holds = { λ shelf. bytes_under shelf.files };

    ghost past = { λ shelf. past_under shelf.stores };

    ghost whole = { λ shelf. IsTrue shelf.whole };

    ghost asked = { λ shelf. shelf.asked };

    ghost faults = { λ shelf. shelf.plan.faults };

    fn read(&mut self, alloc: Global, name: &str, limit: u64) -> Result<FileBytes, FileFault>
        ensures within { IfOk result (KeepsLimit limit) }
        ensures bytes { IfOk result (ReadsFile (bytes_under self.old.files name.now)) }
        // A call does nothing where there is no memory to note it. Each other call is noted, and fails exactly where it
        // is to fail or there is no such file.
        ensures call { ((result ≡ Err FileFault.NoMemory) × (self.new ≡ self.old)) ⊎ ReadsShelf self.old self.new name.now result }
        ensures cause { FileCause self.old.plan.faults self.new.plan.faults result }
    {
        self.note(alloc, name)?;
        self.plan.call()?;
        let Some(bytes) = self.bytes_under(name) else {
            return Err(self.plan.fault().into());
        };
        let length = bytes.len() as u64;
        if length > limit {
            return Ok(FileBytes::Longer { length });
        }
        Ok(FileBytes::Whole(Items::from_vec(bytes.to_vec(alloc)?)))
    }

    #[tactic(auto, using(crate::proofs::Shelves::added_here, crate::proofs::Shelves::added_elsewhere))]
    fn disk(&mut self, alloc: Global, name: &str) -> Result<MemoryDisk, FileFault>
        ensures bytes { IfOk result (λ store. (state_of store).bytes ≡ unwrap_or (bytes_under self.old.files name.now) []) }
        ensures settled { IfOk result (λ store. (state_of store).story.window ≡ settled (state_of store).bytes) }
        ensures begins { IfOk result (λ store. (state_of store).story.past ≡ []) }
        ensures fresh { IfOk result (λ store. store.failures.plan.faults ≡ 0) }
        ensures there { bytes_under self.new.files name.now ≡ opened (bytes_under self.old.files name.now) result }
        ensures stays { (file : List ℕ) → file ≢ name.now → bytes_under self.new.files file ≡ bytes_under self.old.files file }
        ensures call { ((result ≡ Err FileFault.NoMemory) × (self.new ≡ self.old)) ⊎ OpensShelf self.old self.new name.now result }
        ensures cause { FileCause self.old.plan.faults self.new.plan.faults result }
    {
        self.note(alloc, name)?;
        self.plan.call()?;
        let Some(bytes) = self.bytes_under(name) else {
            let store = MemoryDisk::new(alloc, Items::new(alloc), Items::new(alloc))?;
            self.add(alloc, name)?;
            return Ok(store);
        };
        let contents = Items::from_vec(bytes.to_vec(alloc)?);
        Ok(MemoryDisk::new(alloc, contents, Items::new(alloc))?)
    }

    fn close(&mut self, name: &str, store: MemoryDisk)
        requires { IsSome (bytes_under self.old.files name.now) }
        ensures bytes { bytes_under self.new.files name.now ≡ Some (state_of store).bytes }
        ensures stays { (file : List ℕ) → file ≢ name.now → bytes_under self.new.files file ≡ bytes_under self.old.files file }
        ensures gains { IsTrue self.new.whole → IsTrue self.old.whole
            × (past_under self.new.stores name.now ≡ past_under self.old.stores name.now ++ windows (state_of store).story) }
        ensures past { (file : List ℕ) → file ≢ name.now → past_under self.new.stores file ≡ past_under self.old.stores file }
        ensures asks { self.new.asked ≡ self.old.asked }
        ensures cause { Joins self.old.plan.faults store.failures.plan.faults self.new.plan.faults }
    {
        if store.faults() > 0 {
            let _fault = self.plan.fault();
        }
        let bytes = self.keep(name, store);
        put(&mut self.files, name, bytes);
    }
}

/// Copies of a name, and of the bytes that a store reads.
#[tactic(auto, using(crate::proofs::Shelves::image_as_it_is))]
fn copied(alloc: Global, name: &str, store: &MemoryDisk) -> Result<(Items<u8>, Items<u8>), NoMemory>
    ensures { IfOk result (λ copies. (copies.0 ≡ name.now) × (copies.1 ≡ (state_of store.now).bytes)) }
{
    let name = Items::from_vec(name.as_bytes().to_vec(alloc)?);
    let image = store.image(alloc, AS_IT_IS)?;
    Ok((name, image.into_bytes()))
}

/// Puts an item into room that was reserved.
fn push_in_room(stores: &mut Vec<(Items<u8>, MemoryDisk)>, store: (Items<u8>, MemoryDisk))
    requires { vec_len stores.old < vec_capacity stores.old }
    ensures { stores.new.items ≡ stores.old.items ++ store ∷ [] }
{
    let pushed = stores.push(store);
    let Ok(()) = pushed else { unreachable!() };
}

/// Puts these bytes in place of those of the file under a name.
fn put(files: &mut [(Items<u8>, Items<u8>)], name: &str, bytes: Items<u8>)
    requires { IsSome (bytes_under files.old name.now) }
    ensures here { bytes_under files.new name.now ≡ Some bytes }
    ensures others { (file : List ℕ) → file ≢ name.now → bytes_under files.new file ≡ bytes_under files.old file }
{
    let place = place_of(files, name);
    let Some(place) = place else { unreachable!() };
    files[place].1 = bytes;
}

/// The place of the file under a name.
fn place_of(files: &[(Items<u8>, Items<u8>)], name: &str) -> Option<usize>
    ensures { result ≡ position (λ file. bytes_eq file.0 name.now) files.now }
{
    files
        .iter()
        .position(|file| file.0.slice() == name.as_bytes())
}
