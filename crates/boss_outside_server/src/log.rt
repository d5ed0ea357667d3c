ghost use Rattle.std.specs.Prelude.{◌≡◌, [], ◌∷◌, ◌++◌, map, IfOk};

use boss_model::NoMemory;
use std::alloc::Global;
use std::marker::Model;
use std::mem;

/// Entries in order, to which others can be joined without memory: each entry brings its own room.
pub struct Log<T: Drop> {
    newest: Link<T>,
}

/// The entries from the newest to the oldest.
#[derive(Drop)]
enum Link<T> {
    End,
    More(T, Box<Link<T>>),
}

/// A loop, so that a long log takes no depth of the stack.
impl<T: Drop> Drop for Log<T> {
    fn drop(self) {
        let Log { newest } = self;
        let mut rest = newest;
        while let Link::More(_, older) = rest {
            rest = Box::into_inner(older);
        }
    }
}

/// Room for one entry of a log.
#[derive(Drop)]
pub struct Room<T: Drop> {
    link: Box<Link<T>>,
}

impl<T: Drop> Model for Log<T> {
    ghost use Rattle.std.specs.Prelude.{List, reverse};
    ghost use Rattle.boss_outside_server.specs.Log.{newest_first};

    ghost Value = { List T };

    ghost view = { λ l. reverse (newest_first l.newest) };
}

impl<T: Drop> Room<T> {
    /// Room for one entry.
    pub fn new(alloc: Global) -> Result<Room<T>, NoMemory> {
        Ok(Room {
            link: Box::new(alloc, Link::End)?,
        })
    }
}

impl<T: Drop> Log<T> {
    /// The log without an entry.
    pub fn new() -> Log<T>
        ensures { result ≡ [] }
    {
        Log { newest: Link::End }
    }

    /// Puts an entry at the end.
    pub fn push(&mut self, entry: T, room: Room<T>)
        ensures { self.new ≡ self.old ++ entry ∷ [] }
    {
        let Room { mut link } = room;
        let _end = mem::replace(&mut *link, mem::replace(&mut self.newest, Link::End));
        self.newest = Link::More(entry, link);
    }

    /// Puts all entries of the other log at the end.
    pub fn append(&mut self, mut other: Log<T>)
        ensures { self.new ≡ self.old ++ other }
    {
        let mut turned = Link::End;
        let mut rest = mem::replace(&mut other.newest, Link::End);
        while let Link::More(entry, mut link) = rest {
            rest = mem::replace(&mut *link, turned);
            turned = Link::More(entry, link);
        }
        while let Link::More(entry, mut link) = turned {
            turned = mem::replace(&mut *link, mem::replace(&mut self.newest, Link::End));
            self.newest = Link::More(entry, link);
        }
    }

    /// The entries in order.
    pub fn entries(&self, alloc: Global) -> Result<Vec<&T>, NoMemory>
        ensures { IfOk result (λ entries. map (λ entry. entry.now) entries.items ≡ self.now) }
    {
        let mut entries = Vec::new(alloc);
        let mut link = &self.newest;
        while let Link::More(entry, older) = link {
            entries.push(entry)?;
            link = older;
        }
        entries.reverse();
        Ok(entries)
    }
}
