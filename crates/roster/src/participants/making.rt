// What makes and reads a roster.
ghost use Rattle.std.specs.Prelude.{◌≡◌, length};
ghost use Rattle.tables.specs.Rows.{place_of, lookup, Within};
ghost use Rattle.roster.specs.Peers.{peer_of};
ghost use Rattle.roster.specs.Rosters.{roster_of, weight_of, Made};

use crate::participants::Participants;
use crate::row::PeerRow;
use crate::weights::Shares;
use kinds::Ordered;
use score::Rating;
use std::alloc::Global;
use tables::{Table, TableError};

// Rows at most of a roster and of a blocked list.
pub const MOST_PEERS: usize = 1_024;

impl<P: Ordered, V: Rating> Participants<P, V> {
    // An empty roster for 1 to 1,024 peers, with all the memory that it will need.
    pub fn new(heap: Global, engine: u32, most: usize) -> Result<Participants<P, V>, TableError>
        ensures { Made engine most result }
    {
        let peers = Table::new(heap, engine, most, MOST_PEERS)?;
        let shares = Shares::new(heap, most)?;
        let spare = Table::new(heap, engine, most, MOST_PEERS)?;
        Ok(Participants {
            peers,
            shares,
            spare,
        })
    }

    pub fn engine(&self) -> u32
        ensures { result ≡ (roster_of self.now).peers.engine }
    {
        self.peers.engine()
    }

    pub fn most(&self) -> usize
        ensures { result ≡ (roster_of self.now).peers.most }
    {
        self.peers.most()
    }

    pub fn len(&self) -> usize
        ensures { result ≡ length (roster_of self.now).peers.rows }
    {
        self.peers.len()
    }

    // The place of a peer, or where it would be.
    pub fn find(&self, peer: P) -> Result<usize, usize>
        ensures value { result ≡ place_of P.Ordered.order peer_of peer (roster_of self.now).peers.rows }
        ensures within { Within (length (roster_of self.now).peers.rows) result }
    {
        self.peers.find(peer)
    }

    // The row of a peer.
    pub fn get(&self, peer: P) -> Option<PeerRow<P, V>>
        ensures { result ≡ lookup P.Ordered.order peer_of peer (roster_of self.now).peers.rows }
    {
        self.peers.get(peer)
    }

    // The weight of a peer of the roster.
    pub fn weight(&self, peer: P) -> Option<u64>
        ensures { result ≡ weight_of P.Ordered.own peer (roster_of self.now) }
    {
        let i = self.find(peer).ok()?;
        self.shares.rows.get(i).map(|share| share.weight)
    }
}
