ghost use Rattle.std.specs.Prelude.{◌≡◌, []};
ghost use Rattle.boss_looks.specs.Looks.{Begins, Joins, PutsOff, first_due, is_due, without};

use boss_model::PointId;
use std::alloc::Global;
use std::marker::Model;

/// A value that a device took and that is looked after from time to time.
#[derive(Clone, Copy, Debug, PartialEq, Eq)]
pub struct Kept {
    pub point: PointId,
    pub value: i64,
    /// How often, in milliseconds.
    pub every: u64,
    /// When it is due, in milliseconds; none as long as nobody looked since it was taken.
    pub at: Option<u64>,
}

impl Kept {
    /// Whether it is to be looked after at this moment. Where nobody looked yet it is, so that its moments begin.
    pub fn is_due(&self, now: u64) -> bool
        ensures { result ≡ is_due now self.now }
    {
        match self.at {
            Some(at) => at <= now,
            None => true,
        }
    }

    /// For how many milliseconds from this moment on it is not due.
    fn rests(&self, now: u64) -> u64 {
        self.at.unwrap_or(0).saturating_sub(now)
    }
}

/// Values that are looked after: what was looked after last stands last.
#[derive(Debug, Drop)]
pub struct Queue {
    kept: Vec<Kept>,
}

impl Model for Queue {
    ghost use Rattle.std.specs.Prelude.{List};
    ghost use Rattle.boss_looks.specs.declared.queue.Kept.{Kept as Held};

    ghost Value = { List Held };

    ghost view = { λ q. q.kept.items };
}

impl Queue {
    /// An empty one. It takes no memory.
    pub fn new(alloc: Global) -> Queue
        ensures { result ≡ [] }
    {
        Queue {
            kept: Vec::new(alloc),
        }
    }

    /// Leaves nothing in it.
    pub fn clear(&mut self)
        ensures { self.new ≡ [] }
    {
        self.kept.clear();
    }

    /// Leaves out what is kept of a point.
    pub fn forget(&mut self, point: PointId)
        ensures { self.new ≡ without point self.old }
    {
        self.kept.retain(|kept| kept.point != point);
    }

    /// Keeps this behind all others, in place of what is kept of its point. Without memory nothing is kept of it.
    pub fn take(&mut self, kept: Kept)
        ensures { Joins kept self.old self.new }
    {
        self.forget(kept.point);
        let _ = self.kept.push(kept);
    }

    /// Looks after a value from now on each so many milliseconds; never where these are none.
    pub fn begin(&mut self, point: PointId, value: i64, every: u64)
        ensures { Begins point value every self.old self.new }
    {
        if every == 0 {
            self.forget(point);
            return;
        }
        self.take(Kept {
            point,
            value,
            every,
            at: None,
        });
    }

    /// What stood longest of all that is due.
    pub fn due(&self, now: u64) -> Option<Kept>
        ensures { result ≡ first_due now self.now }
    {
        self.kept.iter().copied().find(|kept| kept.is_due(now))
    }

    /// Has it due again once its interval is over, behind all others.
    pub fn put_off(&mut self, kept: Kept, now: u64)
        ensures { PutsOff now kept self.old self.new }
    {
        let at = Some(now.saturating_add(kept.every));
        self.take(Kept { at, ..kept });
    }

    /// For how many milliseconds from this moment on nothing is due; `2 ^ 64 - 1` where nothing is kept.
    pub fn rests(&self, now: u64) -> u64 {
        let mut rest = u64::MAX;
        for kept in &self.kept {
            rest = rest.min(kept.rests(now));
        }
        rest
    }
}
