ghost use Rattle.std.specs.Prelude.{◌≡◌, ◌≤◌, ◌<◌, ◌++◌, ◌∷◌, [], length};
ghost use Rattle.boss_bacnet.specs.Frames.{frame};
ghost use Rattle.boss_bacnet.specs.Talks.{Exchanged, HeardBy, Listened};

use crate::asked::Asked;
use crate::fate::Fate;
use crate::frames::frame;
use crate::judging::judge;
use boss_outside::{Datagrams, Heard};

/// How many datagrams are heard after one send, at most: so many late and foreign ones may come before the answer.
const MOST_HEARD: u32 = 64;

/// How many bytes of a datagram are heard. An answer to what is asked here has at most 39.
const ROOM: usize = 512;

/// What came of waiting for one datagram.
#[derive(Clone, Copy, Debug, PartialEq, Eq)]
pub enum One {
    Answer(Fate),
    Foreign,
    Silence,
    Failed,
}

/// What came of a try.
#[derive(Clone, Copy, Debug, PartialEq, Eq)]
pub enum Reply {
    Answer(Fate),
    Silence,
    Failed,
}

/// Sends what is asked, at most so many times, and hears how it fared.
#[tactic(auto, using(crate::proofs::TalkLemmas::none_tried, crate::proofs::TalkLemmas::tried_on, crate::proofs::TalkLemmas::was_answered, crate::proofs::TalkLemmas::was_broken, crate::proofs::TalkLemmas::was_unsent, crate::proofs::TalkLemmas::was_silent))]
pub fn exchange<L: Datagrams>(link: &mut L, id: u8, asked: &Asked, tries: u32) -> Fate
    requires { asked.now.object.instance ≤ 4194302 }
    ensures { Exchanged L.Datagrams id asked.now link.old link.new tries result }
{
    let frame = frame(id, asked);
    for number in 0..tries {
        let Ok(()) = link.send(frame.as_slice()) else {
            return Fate::LinkFault;
        };
        match listen(link, id, asked) {
            Reply::Answer(fate) => return fate,
            Reply::Silence => {}
            Reply::Failed => return Fate::LinkFault,
        }
    }
    Fate::Silent
}

/// Hears datagrams until one is an answer, or there is silence.
#[tactic(auto, using(crate::proofs::TalkLemmas::none_heard, crate::proofs::TalkLemmas::passed_on, crate::proofs::TalkLemmas::answered_on, crate::proofs::TalkLemmas::silent_on))]
fn listen<L: Datagrams>(link: &mut L, id: u8, asked: &Asked) -> Reply
    requires { asked.now.object.instance ≤ 4194302 }
    ensures { Listened L.Datagrams id asked.now link.old link.new result }
{
    for number in 0..MOST_HEARD {
        match hear_one(link, id, asked) {
            One::Answer(fate) => return Reply::Answer(fate),
            One::Foreign => {}
            One::Silence => return Reply::Silence,
            One::Failed => return Reply::Failed,
        }
    }
    Reply::Silence
}

/// Hears one datagram, if one comes.
fn hear_one<L: Datagrams>(link: &mut L, id: u8, asked: &Asked) -> One
    requires { asked.now.object.instance ≤ 4194302 }
    ensures { HeardBy L.Datagrams id asked.now link.old link.new result }
{
    let mut room = [0; ROOM];
    match link.hear(&mut room) {
        Heard::Datagram(count) => match judge(id, asked, &room[..count]) {
            Some(fate) => One::Answer(fate),
            None => One::Foreign,
        },
        Heard::Silence => One::Silence,
        Heard::Failed => One::Failed,
    }
}
