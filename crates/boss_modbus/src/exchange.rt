ghost use Rattle.std.specs.Prelude.{◌≡◌, ◌≢◌, false, [], ◌∷◌, ◌++◌, OnOk};
ghost use Rattle.boss_outside.specs.Counts.{HasCause};
ghost use Rattle.boss_outside.specs.Streams.{TakesFront};
ghost use Rattle.boss_modbus.specs.Fates.{Fared, FateCause, goes_on};
ghost use Rattle.boss_modbus.specs.Frames.{frame};
ghost use Rattle.boss_modbus.specs.Writes.{Reaches, Exchanged};

use crate::Fate;
use crate::fate::goes_on;
use crate::frames::{answer_size, frame};
use crate::request::Asked;
use crate::response::{Filled, Response, hear, judge};
use boss_outside::{Failed, Link};

/// Sends one frame and hears its response. The connection is kept after an answer of the device and its exception alone.
pub fn exchange<L: Link>(
    link: &mut L,
    is_connected: &mut bool,
    host: &[u8],
    number: u16,
    asked: &Asked,
    response: &mut Response,
) -> Fate
    requires { response.old.items ≡ [] }
    ensures exchanged { Exchanged L.Link is_connected.old host.now number asked.now response.new.items link.old link.new result }
    ensures connected { is_connected.new ≡ goes_on result }
    ensures shut { L.tells → goes_on result ≡ false → L.connected link.new ≡ false }
{
    let fate = ask(link, *is_connected, host, number, asked, response);
    *is_connected = goes_on(fate);
    if !goes_on(fate) {
        link.shut();
    }
    fate
}

/// Connects, where that is wanted, sends the frame and hears its response.
#[tactic(auto, using(crate::proofs::Fronts::all_front, crate::proofs::Fronts::no_front, crate::proofs::Fronts::front_after, crate::proofs::Judging::too_short))]
fn ask<L: Link>(
    link: &mut L,
    is_connected: bool,
    host: &[u8],
    number: u16,
    asked: &Asked,
    response: &mut Response,
) -> Fate
    requires { response.old.items ≡ [] }
    ensures cause { FateCause (L.faults link.old) (L.faults link.new) result }
    ensures reaches { L.tells → Reaches is_connected host.now (L.hosts link.old) (L.hosts link.new) }
    ensures reached { L.tells → is_connected ≡ false → result ≢ Fate.LinkFault
        → L.hosts link.new ≡ L.hosts link.old ++ host.now ∷ [] }
    ensures front { L.tells → TakesFront (L.sent link.old) (L.sent link.new) (frame number asked.now) }
    ensures sent { L.tells → result ≢ Fate.LinkFault → L.sent link.new ≡ L.sent link.old ++ frame number asked.now }
    ensures received { L.tells → L.received link.new ≡ L.received link.old ++ response.new.items }
    ensures fared { L.tells → Fared number asked.now response.new.items (L.left link.new) result }
{
    let Ok(()) = reach(link, is_connected, host) else {
        return Fate::LinkFault;
    };
    let Ok(()) = link.send(frame(number, asked).as_slice()) else {
        return Fate::LinkFault;
    };
    match hear(link, response, number, answer_size(asked.request)) {
        Filled::Whole => judge(number, asked, response.as_slice()),
        Filled::Finished => Fate::Ended,
        Filled::Failed => Fate::LinkFault,
    }
}

/// Connects to the host, where there is no connection.
fn reach<L: Link>(link: &mut L, is_connected: bool, host: &[u8]) -> Result<(), Failed>
    ensures cause { HasCause (L.faults link.old) (L.faults link.new) result }
    ensures reaches { L.tells → Reaches is_connected host.now (L.hosts link.old) (L.hosts link.new) }
    ensures reached { OnOk result (L.tells → is_connected ≡ false → L.hosts link.new ≡ L.hosts link.old ++ host.now ∷ []) }
    ensures sent { L.tells → L.sent link.new ≡ L.sent link.old }
    ensures received { L.tells → L.received link.new ≡ L.received link.old }
{
    if is_connected {
        return Ok(());
    }
    link.connect(host)
}
