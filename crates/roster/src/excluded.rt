// Peers that are never asked.
ghost use Rattle.std.specs.Prelude.{◌≡◌};
ghost use Rattle.tables.specs.Tables.{tab_of};
ghost use Rattle.roster.specs.Peers.{is_out};

use kinds::Ordered;
use tables::{Only, Table};

// The engine's own peer, if any, and the blocked ones.
#[derive(Clone, Copy)]
pub struct Excluded<'a, P: Copy> {
    pub own: Option<P>,
    pub blocked: &'a Table<Only<P>>,
}

impl<'a, P: Ordered> Excluded<'a, P> {
    // Whether a peer is never asked. It is asked for each row of a roster, so it is no call there.
    #[inline(always)]
    pub fn contains(&self, peer: P) -> bool
        ensures { result ≡ is_out P.Ordered.own self.now.own (tab_of self.now.blocked.now).rows peer }
    {
        matches!(self.own, Some(own) if own == peer) || self.blocked.find(peer).is_ok()
    }
}
