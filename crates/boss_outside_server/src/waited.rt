ghost use Rattle.std.specs.Prelude.{◌≡◌};
ghost use Rattle.boss_outside_server.specs.Waits.{after_leave, after_pause, closes_after, leaving_after, lengths_after, listening, new_waited, one_pause_more};

use crate::Woke;

/// The number of pauses at which a count of them stands still: `2 ^ 62`.
const LAST_PAUSE: u64 = 1 << 62;

/// How long the pauses of a worker were asked to be.
#[derive(Clone, Copy, Debug, PartialEq, Eq)]
pub enum Lengths {
    /// There was none.
    NoPause,
    /// The shortest was to be so long, and the longest so long, in milliseconds.
    Within(u64, u64),
}

impl Lengths {
    /// These, and one more pause, in milliseconds.
    fn after(self, milliseconds: u64) -> Lengths
        ensures { result ≡ lengths_after self milliseconds }
    {
        match self {
            Lengths::NoPause => Lengths::Within(milliseconds, milliseconds),
            Lengths::Within(least, most) => {
                Lengths::Within(least.min(milliseconds), most.max(milliseconds))
            }
        }
    }
}

/// Whether a worker has left.
#[derive(Clone, Copy, Debug, PartialEq, Eq)]
pub enum Leaving {
    /// It has not.
    NotYet,
    /// It has, once, when it had served so many connections.
    Once(u32),
    /// It has left more than once.
    Often,
}

impl Leaving {
    /// The worker leaves, when it has served so many connections.
    fn after(self, connections: u32) -> Leaving
        ensures { result ≡ leaving_after self connections }
    {
        match self {
            Leaving::NotYet => Leaving::Once(connections),
            _ => Leaving::Often,
        }
    }
}

/// What a waiter notes of a worker.
#[derive(Clone, Copy, Debug, PartialEq, Eq)]
pub struct Waited {
    /// The number of its pauses, up to `2 ^ 62`, where it stands still.
    pub pauses: u64,
    /// How long they were.
    pub lengths: Lengths,
    /// Whether the last one said Close.
    pub closed: bool,
    /// How many of them said Close, up to `2 ^ 62`, where it stands still.
    pub closes: u64,
    /// How many workers were said to be waited for, before this one began; 0 where nothing was said.
    pub expected: u32,
    /// Whether it has left.
    pub leaving: Leaving,
    /// The bell at which its pauses end since it listened last. None where it never did.
    pub bell: Option<u32>,
}

impl Waited {
    /// Nothing yet, where so many workers are waited for.
    pub(crate) fn new(expected: u32) -> Waited
        ensures { result ≡ new_waited expected }
    {
        Waited {
            pauses: 0,
            lengths: Lengths::NoPause,
            closed: false,
            closes: 0,
            expected,
            leaving: Leaving::NotYet,
            bell: None,
        }
    }

    /// This, and one more pause, in milliseconds, that ended so.
    pub(crate) fn after_pause(self, milliseconds: u64, woke: Woke) -> Waited
        ensures { result ≡ after_pause milliseconds woke self }
    {
        Waited {
            pauses: one_more(self.pauses),
            lengths: self.lengths.after(milliseconds),
            closed: matches!(woke, Woke::Close),
            closes: closes_after(self.closes, woke),
            ..self
        }
    }

    /// This, and that the worker leaves, when it has served so many connections.
    pub(crate) fn after_leave(self, connections: u32) -> Waited
        ensures { result ≡ after_leave connections self }
    {
        Waited {
            leaving: self.leaving.after(connections),
            ..self
        }
    }

    /// This, and that its pauses end at this bell from now on.
    pub(crate) fn after_listen(self, bell: u32) -> Waited
        ensures { result ≡ listening bell self }
    {
        Waited {
            bell: Some(bell),
            ..self
        }
    }
}

/// One pause more.
fn one_more(pauses: u64) -> u64
    ensures { result ≡ one_pause_more pauses }
{
    pauses.saturating_add(1).min(LAST_PAUSE)
}

/// How many pauses said Close, with one pause more that ended so.
fn closes_after(closes: u64, woke: Woke) -> u64
    ensures { result ≡ closes_after woke closes }
{
    match woke {
        Woke::Again => closes,
        Woke::Close => one_more(closes),
    }
}
