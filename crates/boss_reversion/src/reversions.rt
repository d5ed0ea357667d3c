ghost use Rattle.std.specs.Prelude.{◌≡◌, ◌≤◌, ◌+◌, ◌^◌, nat_lt};
ghost use Rattle.boss_model.specs.Reversions.{end_of, hold, over, value_at, value_from};
ghost use Rattle.boss_reversion.specs.Playing.{CanPlay, IsPlayable, last_turn, next_boundary};

use boss_model::{Pending, Step};

/// How long a step holds, in milliseconds.
fn hold(step: &Step) -> u64
    ensures { result ≡ hold step.now }
{
    step.hold.unsigned_abs()
}

/// The moment at which steps that start at this one are over, in milliseconds.
pub fn over(start: u64, steps: &[Step]) -> u64
    requires start { start ≤ 2 ^ 61 }
    requires steps { CanPlay steps.now }
    ensures { result ≡ over start steps.now }
{
    let mut moment = start;
    for step in steps {
        moment += hold(step);
    }
    moment
}

/// The moment at which a reversion is over, in milliseconds.
pub fn end_of(reversion: &Pending) -> u64
    requires { IsPlayable reversion.now }
    ensures { result ≡ end_of reversion.now }
{
    over(reversion.start, reversion.steps.slice())
}

/// Whether a reversion is not over at a moment, however late it starts.
pub fn outlasts(reversion: &Pending, moment: u64) -> bool
    ensures { result ≡ nat_lt moment (end_of reversion.now) }
{
    if moment < reversion.start {
        return true;
    }
    let mut played = moment - reversion.start;
    for step in reversion.steps.slice() {
        let length = hold(step);
        if played < length {
            return true;
        }
        played -= length;
    }
    false
}

/// The value of the step that holds at a moment; none before the first and after the last.
pub fn value_at(reversion: &Pending, moment: u64) -> Option<i64>
    requires { IsPlayable reversion.now }
    ensures { result ≡ value_at reversion.now moment }
{
    if moment < reversion.start {
        return None;
    }
    let mut end = reversion.start;
    for step in reversion.steps.slice() {
        end += hold(step);
        if moment < end {
            return Some(step.value);
        }
    }
    None
}

/// The first boundary of a reversion after `now`, in milliseconds: the moment at which a step ends, the last step's among
/// them. None where all have passed.
pub fn next_boundary(reversion: &Pending, now: u64) -> Option<u64>
    requires { IsPlayable reversion.now }
    ensures { result ≡ next_boundary reversion.now now }
{
    let mut end = reversion.start;
    for step in reversion.steps.slice() {
        end += hold(step);
        if now < end {
            return Some(end);
        }
    }
    None
}

/// The last moment after `now`, up to and with `n`, at which one of these steps ends, or `now` where there is none.
pub fn last_turn(start: u64, steps: &[Step], now: u64, n: u64) -> u64
    requires start { start ≤ 2 ^ 61 }
    requires steps { CanPlay steps.now }
    ensures { result ≡ last_turn start steps.now now n }
{
    let mut last = now;
    let mut end = start;
    for step in steps {
        end += hold(step);
        if now < end && end <= n {
            last = last.max(end);
        }
    }
    last
}
