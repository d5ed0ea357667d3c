ghost use Rattle.std.specs.Prelude.{◌≡◌, ◌<◌, ◌++◌, ◌∷◌, [], true, false, length, slice_get, IfOk};
ghost use Rattle.std.specs.Option.{ForSome};
ghost use Rattle.boss_model.specs.Lists.{member, without};
ghost use Rattle.boss_marks.specs.Line.{behind, linked, started};

use boss_model::{NoMemory, PointId};
use std::alloc::Global;
use std::marker::Model;

/// Points that stand in a line, each at most once: a doubly linked list, whose links are kept by point.
#[derive(Drop)]
pub struct Line {
    after: Vec<Option<PointId>>,
    before: Vec<Option<PointId>>,
    stands: Vec<bool>,
    first: Option<PointId>,
    last: Option<PointId>,
}

impl Model for Line {
    ghost use Rattle.std.specs.Prelude.{length};
    ghost use Rattle.boss_marks.specs.Line.{Line as Points, IsLine, walk};

    ghost Value = { Points };

    ghost view = { λ l. record { room = length l.stands.items; points = walk l.after.items (length l.stands.items) l.first } };

    ghost invariant = { λ l. IsLine l.after.items l.before.items l.stands.items l.first l.last (walk l.after.items (length l.stands.items) l.first) };
}

impl Line {
    /// An empty line for the points below `room`.
    pub fn new(alloc: Global, room: usize) -> Result<Line, NoMemory>
        ensures { IfOk result (λ line. line ≡ record { room = room; points = [] }) }
    {
        Ok(Line {
            after: vec![in alloc; None; room]?,
            before: vec![in alloc; None; room]?,
            stands: vec![in alloc; false; room]?,
            first: None,
            last: None,
        })
    }

    /// Whether the point stands in the line.
    pub fn contains(&self, point: PointId) -> bool
        requires { point < self.now.room }
        ensures { result ≡ member point self.now.points }
    {
        self.stands[point.0 as usize]
    }

    /// The point that stands behind this one.
    pub fn after(&self, point: PointId) -> Option<PointId>
        requires { member point self.now.points ≡ true }
        ensures { result ≡ slice_get (behind point self.now.points) 0 }
    {
        self.after[point.0 as usize]
    }

    /// The point takes its place at the end of the line.
    pub fn push(&mut self, point: PointId)
        requires known { point < self.old.room }
        requires outside { member point self.old.points ≡ false }
        ensures { self.new ≡ record self.old { points = self.old.points ++ point ∷ [] } }
    {
        let place = point.0 as usize;
        link(&mut self.after, &mut self.first, self.last, Some(point));
        self.after[place] = None;
        self.before[place] = self.last;
        self.stands[place] = true;
        self.last = Some(point);
    }

    /// The point leaves the line.
    pub fn remove(&mut self, point: PointId)
        requires { member point self.old.points ≡ true }
        ensures { self.new ≡ record self.old { points = without point self.old.points } }
    {
        let place = point.0 as usize;
        let after = self.after[place];
        link(&mut self.after, &mut self.first, self.before[place], after);
        let before = self.before[place];
        link(&mut self.before, &mut self.last, self.after[place], before);
        self.stands[place] = false;
    }
}

/// Makes the link of `from` lead to `to`, or where there is no `from`, the start.
fn link(
    links: &mut [Option<PointId>],
    start: &mut Option<PointId>,
    from: Option<PointId>,
    to: Option<PointId>,
)
    requires { ForSome from (λ point. point < length links.old) }
    ensures links { links.new ≡ linked from to links.old }
    ensures start { start.new ≡ started from to start.old }
{
    match from {
        Some(point) => links[point.0 as usize] = to,
        None => *start = to,
    }
}
