ghost use Rattle.std.specs.Prelude.{◌≡◌, true, Some};
ghost use Rattle.boss_etcd.specs.Asking.{Asked, Hears};

use boss_http::{Heard, exchange, post};
use boss_model::Items;
use boss_outside::Link;
use std::alloc::Global;

/// The members of a cluster, of which one is asked at a time.
#[derive(Drop)]
pub struct Members<L> {
    alloc: Global,
    link: L,
    is_connected: bool,
    hosts: Items<Items<u8>>,
    /// The place of the one that is asked.
    turn: usize,
    heard: Heard,
}

impl<L: Link> Members<L> {
    /// The members with these hosts, over a link that is not connected. Nothing is sent.
    pub fn new(alloc: Global, link: L, hosts: Items<Items<u8>>) -> Members<L>
        ensures link { result.link ≡ link }
        ensures hosts { result.hosts ≡ hosts }
    {
        Members {
            alloc,
            link,
            is_connected: false,
            hosts,
            turn: 0,
            heard: Heard::new(alloc),
        }
    }

    /// The link.
    pub fn link(&self) -> &L
        ensures { result.now ≡ self.now.link }
    {
        &self.link
    }

    /// The content of the last response that came whole.
    pub fn content(&self) -> &[u8]
        ensures { result.now ≡ self.now.heard.content.items }
    {
        self.heard.content.as_slice()
    }

    /// Posts a body to a path of the member that is asked. Whether a whole response came, with status 200; where not, the next
    /// member is asked next.
    #[tactic(auto, using(crate::proofs::Asks::asked_still))]
    pub fn ask(&mut self, path: &[u8], body: &[u8]) -> bool
        ensures asked { L.tells → Asked L.Link self.old.hosts path.now body.now self.old.link self.new.link }
        ensures hears { L.tells → result ≡ true
            → Hears L.Link self.old.hosts path.now body.now self.old.link self.new.link self.new.heard.content.items }
        ensures hosts { self.new.hosts ≡ self.old.hosts }
    {
        if self.exchange(path, body) == Some(200) {
            return true;
        }
        self.leave();
        false
    }

    /// Asks the next member from now on.
    pub fn leave(&mut self)
        ensures sent { L.tells → L.sent self.new.link ≡ L.sent self.old.link }
        ensures received { L.tells → L.received self.new.link ≡ L.received self.old.link }
        ensures hosts { self.new.hosts ≡ self.old.hosts }
    {
        self.link.shut();
        self.is_connected = false;
        let next = self.turn.saturating_add(1);
        self.turn = if next < self.hosts.slice().len() {
            next
        } else {
            0
        };
    }

    /// Posts a body to a path of the member that is asked, and gives the status of its response.
    #[tactic(auto, using(crate::proofs::Asks::nothing_asked, crate::proofs::Asks::front_asked, crate::proofs::Asks::hears))]
    fn exchange(&mut self, path: &[u8], body: &[u8]) -> Option<u16>
        ensures asked { L.tells → Asked L.Link self.old.hosts path.now body.now self.old.link self.new.link }
        ensures hears { L.tells → result ≡ Some 200
            → Hears L.Link self.old.hosts path.now body.now self.old.link self.new.link self.new.heard.content.items }
        ensures hosts { self.new.hosts ≡ self.old.hosts }
    {
        let host = self.hosts.slice().get(self.turn)?;
        let Ok(request) = post(self.alloc, path, host.slice(), body) else {
            return None;
        };
        exchange(
            &mut self.link,
            &mut self.is_connected,
            host.slice(),
            request.as_slice(),
            &mut self.heard,
        )
    }
}
