// What comes of the requests that are out.
ghost use Rattle.std.specs.Prelude.{◌≡◌};
ghost use Rattle.model.specs.Calls.{active_answer, active_step, response_answer, missing_answer, missing_step};
ghost use Rattle.fetcher.specs.View.{fet_of};

use crate::fetcher::Fetcher;
use kinds::Ordered;
use score::Rating;

impl<P: Ordered, V: Rating, K: Ordered> Fetcher<P, V, K> {
    // The key of the request with the earliest deadline, whose peer is charged the timeout plus the delay. The key is
    // out until it is queued again.
    pub fn pop_active(&mut self) -> Option<K>
        ensures answer { result ≡ active_answer (fet_of self.old) }
        ensures state { fet_of self.new ≡ active_step P.Ordered.own V.Rating (fet_of self.old) }
    {
        let request = self.keys.first_out(self.timeout)?;
        self.roster
            .record(request.peer, self.timeout.saturating_add(self.delay), 0);
        Some(request.key)
    }

    // The key that is out under an id at a peer, with the time since its start. It is out until it is handed out under
    // a slip or queued again. An id and a peer and no struct: a response comes with the two, as in the port.
    pub fn pop_response(&self, id: u64, peer: P, time: u64) -> Option<(K, u64)>
        ensures { result ≡ response_answer P.Ordered.own id peer time (fet_of self.now) }
    {
        let (key, start) = self.keys.asked(id, peer)?;
        Some((key, time.saturating_sub(start)))
    }

    // The key that is out under an id at a peer which does not have it: the peer is charged the elapsed time plus the
    // delay.
    pub fn pop_missing(&mut self, id: u64, peer: P, time: u64) -> Option<K>
        ensures answer { result ≡ missing_answer P.Ordered.own id peer time (fet_of self.old) }
        ensures state { fet_of self.new ≡ missing_step P.Ordered.own V.Rating id peer time (fet_of self.old) }
    {
        let (key, elapsed) = self.pop_response(id, peer, time)?;
        self.roster
            .record(peer, elapsed.saturating_add(self.delay), 0);
        Some(key)
    }
}
