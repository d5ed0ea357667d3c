ghost use Rattle.std.specs.Prelude.{◌≡◌, false, [], List, ℕ, None};
ghost use Rattle.boss_disk_pair.specs.Causes.{counts_of};
ghost use Rattle.boss_durable.specs.Words.{lasting};
ghost use Rattle.boss_following.specs.Ends.{DiskCause, ended_at, has_failed, FollowedFeed, ReadCause, was_stopped};
ghost use Rattle.boss_following.specs.Owns.{BeginOwn, FollowedOwn};
ghost use Rattle.boss_following.specs.declared.stop.FollowEnd.TheVariants as end;
ghost use Rattle.boss_following.specs.Places.{place_of};
ghost use Rattle.boss_model.specs.Catalogue.{actuators};
ghost use Rattle.boss_model.specs.declared.event.Event.{Event};
ghost use Rattle.boss_model.specs.Lines.{lines};
ghost use Rattle.def_feed.specs.Items.{Item};

use crate::following::Following;
use crate::place::Place;
use crate::stop::FollowEnd;
use boss_disk::Disk;
use boss_durable::Durable;
use boss_lines::{Lines, Next};
use boss_model::MOST_LINES;
use boss_outside::Source;
use boss_points::Catalogue;
use std::alloc::Global;

/// Reads a feed to its end, and does in a journal what it tells: an event with the next number is appended, and a state with a
/// greater number than the journal's is taken on; what is known already is passed over. The value goes by this catalogue.
///
/// Lines that begin a feed of the journal's own history are followed as far as they are read. What a crash leaves meanwhile, or after
/// a DiskFault, opens to what lasts after some of the lines that were read; after any other answer to what lasts now.
pub fn follow<D: Disk, S: Source>(
    alloc: Global,
    catalogue: &Catalogue,
    durable: &mut Durable<D>,
    source: &mut S,
) -> FollowEnd
    requires { durable.old.engine.plant ≡ actuators catalogue.now }
    // Of a source that tells its bytes.
    ensures follows { S.tells → FollowedFeed durable.old durable.new (S.left source.old) (S.left source.new) result }
    // Where these begin a feed of one's own history.
    ensures own { S.tells → (history : List Event) (told : List Item) →
        BeginOwn durable.old.engine.plant history durable.old.disks.events (lasting durable.old) (lines (S.left source.old)) told →
        FollowedOwn history told durable.old durable.new result }

    // Of every source.
    ensures stopped { was_stopped result ≡ durable.old.disks.stopped }
    ensures unread { result ≡ end.Stopped → (durable.new ≡ durable.old) × (source.new ≡ source.old) }
    ensures stops { has_failed result ≡ durable.new.disks.stopped }
    ensures read { ReadCause (S.faults source.old) (S.faults source.new) result }
    ensures disk { DiskCause (counts_of durable.old.disks) (counts_of durable.new.disks) result }
    ensures plant { durable.new.engine.plant ≡ durable.old.engine.plant }
    ensures limit { durable.new.log_limit ≡ durable.old.log_limit }
    ensures digest { durable.new.disks.digest ≡ durable.old.disks.digest }
{
    // Its points are a plant, so that a history's states have a spelling.
    catalogue.count();
    if durable.stopped() {
        return FollowEnd::Stopped;
    }
    let Ok(mut lines) = Lines::new(alloc) else {
        return FollowEnd::NoMemory;
    };
    let Ok(mut following) = Following::new(alloc) else {
        return FollowEnd::NoMemory;
    };
    follow_lines(catalogue, durable, source, &mut lines, &mut following)
}

/// Takes the lines of a source, one after another, up to the line that ends it.
fn follow_lines<D: Disk, S: Source>(
    catalogue: &Catalogue,
    durable: &mut Durable<D>,
    source: &mut S,
    lines: &mut Lines,
    following: &mut Following,
) -> FollowEnd
    requires plant { durable.old.engine.plant ≡ actuators catalogue.now }
    requires going { durable.old.disks.stopped ≡ false }
    requires fresh { lines.old ≡ record { line = []; ahead = []; stopped = None } }
    requires place { following.old.place ≡ Place.Between }
    ensures follows { S.tells → FollowedFeed durable.old durable.new (S.left source.old) (S.left source.new) result }
    ensures stopped { was_stopped result ≡ false }
    ensures stops { has_failed result ≡ durable.new.disks.stopped }
    ensures read { ReadCause (S.faults source.old) (S.faults source.new) result }
    ensures disk { DiskCause (counts_of durable.old.disks) (counts_of durable.new.disks) result }
    ensures plant { durable.new.engine.plant ≡ durable.old.engine.plant }
    ensures limit { durable.new.log_limit ≡ durable.old.log_limit }
    ensures digest { durable.new.disks.digest ≡ durable.old.disks.digest }
{
    for line in 0..MOST_LINES {
        match lines.next(source) {
            Next::Line => {
                let taken = following.take_line(catalogue, durable, lines.line());
                if let Err(stop) = taken {
                    return stop.at(line + 1);
                }
            }
            end => return end_at(following.place(), end),
        }
    }
    end_at(following.place(), lines.next(source))
}

/// The end behind all lines that were read.
fn end_at(place: Place, next: Next) -> FollowEnd
    ensures { (bytes : List ℕ) → result ≡ ended_at (place_of place bytes) next }
{
    match next {
        Next::Line => FollowEnd::Limit,
        Next::Finish => match place {
            Place::Between => FollowEnd::End,
            Place::Passing { .. } | Place::Taking { .. } => FollowEnd::Short,
        },
        Next::TooLong => FollowEnd::TooLong,
        Next::ReadFault => FollowEnd::ReadFault,
    }
}
