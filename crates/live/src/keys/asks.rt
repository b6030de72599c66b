// What is asked of the live keys.
ghost use Rattle.std.specs.Prelude.{◌≡◌, is_some};
ghost use Rattle.tables.specs.Tables.{tab_of, emptied};
ghost use Rattle.live.specs.Queues.{first_queued, next_queued, queue_on};
ghost use Rattle.live.specs.Requests.{earliest, asked, id_out, under};

use crate::keys::LiveKeys;
use crate::queue::{QueueRow, comes_before, list_queue, queue_row, queued_after};
use crate::requests::{Request, asked_in, comes_sooner, id_in, request_of, under_in};
use crate::row::KeyRow;
use kinds::Ordered;
use tables::{best, first};

impl<K: Ordered, P: Ordered> LiveKeys<K, P> {
    // The first queued key.
    pub fn first_queued(&self) -> Option<QueueRow<K>>
        ensures { result ≡ first_queued K.Ordered.own (tab_of self.now.table).rows }
    {
        best(self.table.rows(), queue_row, comes_before)
    }

    // The next queued key after one.
    pub fn next_queued(&self, last: QueueRow<K>) -> Option<QueueRow<K>>
        ensures { result ≡ next_queued K.Ordered.own last (tab_of self.now.table).rows }
    {
        let rows = self.table.rows();
        best(rows, |row| queued_after(row, &last), comes_before)
    }

    // Lists the whole queue, in its order.
    pub fn list(&mut self)
        ensures table { tab_of self.new.table ≡ tab_of self.old.table }
        ensures queue { tab_of self.new.queue ≡ queue_on K.Ordered.own (emptied (tab_of self.old.queue)) (tab_of self.old.table).rows }
    {
        list_queue(&mut self.queue, self.table.rows());
    }

    // The request with the earliest deadline, then the smaller id.
    pub fn first_out(&self, timeout: u64) -> Option<Request<K, P>>
        ensures { result ≡ earliest timeout (tab_of self.now.table).rows }
    {
        let rows = self.table.rows();
        best(rows, |row| request_of(row, timeout), comes_sooner)
    }

    // The key that is out under an id at a peer, with its start.
    pub fn asked(&self, id: u64, peer: P) -> Option<(K, u64)>
        ensures { result ≡ asked P.Ordered.own id peer (tab_of self.now.table).rows }
    {
        first(self.table.rows(), |row| asked_in(row, id, peer))
    }

    // Whether an id is out.
    pub fn is_out(&self, id: u64) -> bool
        ensures { result ≡ id_out id (tab_of self.now.table).rows }
    {
        first(self.table.rows(), |row| id_in(row, id)).is_some()
    }

    // The key that is under judgement by a slip.
    pub fn judged(&self, slip: u32) -> Option<K>
        ensures { result ≡ under slip (tab_of self.now.table).rows }
    {
        first(self.table.rows(), |row| under_in(row, slip))
    }
}
