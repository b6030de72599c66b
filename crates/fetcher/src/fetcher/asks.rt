// What is asked of a fetcher.
ghost use Rattle.std.specs.Prelude.{◌≡◌, true as yes, false as no, length};
ghost use Rattle.roster.specs.Rosters.{weight_of};
ghost use Rattle.model.specs.Calls.{row_of, pending_answer, deadline_answer, stage_of, count_in};
ghost use Rattle.fetcher.specs.View.{fet_of};

use crate::fetcher::Fetcher;
use kinds::Ordered;
use live::Stage;
use score::Rating;

impl<P: Ordered, V: Rating, K: Ordered> Fetcher<P, V, K> {
    // When the queue is to be looked at: the later of the first key's deadline and the waiter.
    pub fn get_pending_deadline(&self) -> Option<u64>
        ensures { result ≡ pending_answer K.Ordered.own (fet_of self.now) }
    {
        let first = self.keys.first_queued()?;
        let deadline = first.turn.deadline;
        Some(self.waiter.map_or(deadline, |until| deadline.max(until)))
    }

    // The earliest deadline of the requests that are out.
    pub fn get_active_deadline(&self) -> Option<u64>
        ensures { result ≡ deadline_answer (fet_of self.now) }
    {
        self.keys
            .first_out(self.timeout)
            .map(|request| request.deadline)
    }

    // The weight of a peer of the roster.
    pub fn weight(&self, peer: P) -> Option<u64>
        ensures { result ≡ weight_of P.Ordered.own peer (fet_of self.now).roster }
    {
        self.roster.weight(peer)
    }

    // Where a live key is.
    pub fn place(&self, key: K) -> Option<Stage<P>>
        ensures { result ≡ stage_of (row_of K.Ordered.own key (fet_of self.now)) }
    {
        self.keys.get(key).map(|row| row.stage)
    }

    // How many keys are live.
    pub fn len(&self) -> usize
        ensures { result ≡ length (fet_of self.now).keys.rows }
    {
        self.keys.table.len()
    }

    // How many keys are queued. This count and the next differ in one pattern, which a function for both would have to be
    // given as a closure.
    pub fn len_pending(&self) -> usize
        ensures { result ≡ count_in yes (fet_of self.now).keys.rows }
    {
        self.keys
            .table
            .rows()
            .iter()
            .filter(|row| matches!(row.stage, Stage::Queued { .. }))
            .count()
    }

    // How many keys are out.
    pub fn len_active(&self) -> usize
        ensures { result ≡ count_in no (fet_of self.now).keys.rows }
    {
        self.keys
            .table
            .rows()
            .iter()
            .filter(|row| matches!(row.stage, Stage::Out { .. }))
            .count()
    }
}
