// What changes the peers of a fetcher.
ghost use Rattle.std.specs.Prelude.{◌≡◌, None as Nothing};
ghost use Rattle.tables.specs.Tables.{tab_of, emptied};
ghost use Rattle.roster.specs.Rosters.{roster_of};
ghost use Rattle.model.specs.Calls.{reconcile_answer, reconcile_step, block_answer, block_step, recorded};
ghost use Rattle.fetcher.specs.View.{fet_of};

use crate::fetcher::Fetcher;
use kinds::Ordered;
use live::LiveKeys;
use roster::{Excluded, Participants};
use score::Rating;
use tables::{Only, Table};
use trackers::Targets;

impl<P: Ordered, V: Rating, K: Ordered> Fetcher<P, V, K> {
    // A fetcher over its tables, before any send.
    pub fn new(
        engine: u32,
        timeout: u64,
        delay: u64,
        own: Option<P>,
        roster: Participants<P, V>,
        blocked: Table<Only<P>>,
        keys: LiveKeys<K, P>,
        targets: Targets<K, P>,
    ) -> Fetcher<P, V, K>
        ensures { fet_of result ≡ record { engine = engine; timeout = timeout; delay = delay; own = own; roster = roster_of roster; blocked = tab_of blocked; keys = tab_of keys.table; listing = emptied (tab_of keys.queue); targets = tab_of targets.table; next = Nothing; waiter = Nothing } }
    {
        Fetcher {
            engine,
            timeout,
            delay,
            own,
            roster,
            blocked,
            keys,
            targets,
            next: None,
            waiter: None,
        }
    }

    // Makes a list the roster: old peers keep their rating, new ones are fresh. Answers whether there was room for it;
    // without room nothing changes.
    pub fn reconcile(&mut self, list: &[P]) -> bool
        ensures answer { result ≡ reconcile_answer list.now (fet_of self.old) }
        ensures state { fet_of self.new ≡ reconcile_step P.Ordered.own V.Rating list.now (fet_of self.old) }
    {
        let excluded = Excluded {
            own: self.own,
            blocked: &self.blocked,
        };
        if !self.roster.reconcile(list, excluded) {
            return false;
        }
        self.waiter = None;
        true
    }

    // Makes a list the blocked list: a peer on it weighs nothing until a later list leaves it out. Answers whether there
    // was room for it; without room nothing changes.
    pub fn set_blocked(&mut self, list: &[P]) -> bool
        ensures answer { result ≡ block_answer list.now (fet_of self.old) }
        ensures state { fet_of self.new ≡ block_step P.Ordered.own V.Rating list.now (fet_of self.old) }
    {
        if !self.blocked.fill(list) {
            return false;
        }
        let excluded = Excluded {
            own: self.own,
            blocked: &self.blocked,
        };
        self.roster.weigh(excluded);
        self.waiter = None;
        true
    }

    // Attributes a response to the peer that sent it.
    pub fn record_response(&mut self, peer: P, elapsed: u64, size: u64)
        ensures { fet_of self.new ≡ recorded P.Ordered.own V.Rating peer elapsed size (fet_of self.old) }
    {
        self.roster.record(peer, elapsed, size);
    }
}
