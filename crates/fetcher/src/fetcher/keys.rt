// What changes the keys of a fetcher and their targets.
ghost use Rattle.std.specs.Prelude.{◌≡◌};
ghost use Rattle.tables.specs.Tables.{tab_of};
ghost use Rattle.live.specs.declared.stage.Event.TheVariants.{Answered, Redelivered};
ghost use Rattle.model.specs.Calls.{row_of, aim_answer, aim_step, unaim_step, has_aim, ready_answer, ready_step, move_answer, moved, retry_at, retry_answer, retry_step, clear_step, retain_step};
ghost use Rattle.fetcher.specs.View.{fet_of};

use crate::fetcher::Fetcher;
use kinds::Ordered;
use live::{Event, KeyRow, LiveKeys, Stage};
use score::Rating;
use trackers::retain_waited;
use waiting::Subscribers;

// The event that queues a key again: its request comes back, or its delivery is rejected.
fn retry_event<K: Ordered, P: Ordered>(row: Option<KeyRow<K, P>>, deadline: u64) -> Event<P>
    ensures { result ≡ retry_at row deadline }
{
    match row.map(|row| row.stage) {
        Some(Stage::Out { .. }) => Event::Returned { deadline },
        _ => Event::Rejected { deadline },
    }
}

impl<P: Ordered, V: Rating, K: Ordered> Fetcher<P, V, K> {
    // Adds peers to the targets of a live key. Answers whether the key is live. A key and a list and no struct, here and in
    // the tables below: the two are what the call is given.
    pub fn add_targets(&mut self, key: K, peers: &[P]) -> bool
        ensures answer { result ≡ aim_answer K.Ordered.own key (fet_of self.old) }
        ensures state { fet_of self.new ≡ aim_step P.Ordered.own K.Ordered.own key peers.now (fet_of self.old) }
    {
        if self.keys.get(key).is_none() {
            return false;
        }
        self.keys.aim(key, true);
        self.targets.add(key, peers);
        self.waiter = None;
        true
    }

    // Takes the target set off a live key: any allowed peer may then be asked. Answers whether the key is live.
    pub fn clear_targets(&mut self, key: K) -> bool
        ensures answer { result ≡ aim_answer K.Ordered.own key (fet_of self.old) }
        ensures state { fet_of self.new ≡ unaim_step K.Ordered.own key (fet_of self.old) }
    {
        if self.keys.get(key).is_none() {
            return false;
        }
        self.keys.aim(key, false);
        self.targets.clear(key);
        self.waiter = None;
        true
    }

    // Whether a live key has a target set.
    pub fn has_targets(&self, key: K) -> bool
        ensures { result ≡ has_aim (row_of K.Ordered.own key (fet_of self.now)) }
    {
        self.keys.get(key).is_some_and(|row| row.aimed)
    }

    // Queues a new key ahead of all retries, due at once. Answers whether the key was new and had room; otherwise
    // nothing changes.
    pub fn add_ready(&mut self, key: K, time: u64) -> bool
        ensures answer { result ≡ ready_answer K.Ordered.own key (fet_of self.old) }
        ensures state { fet_of self.new ≡ ready_step K.Ordered.own key time (fet_of self.old) }
    {
        if self.keys.get(key).is_some() || !self.keys.insert(key, false, time) {
            return false;
        }
        self.waiter = None;
        true
    }

    // Queues a key again that is out or under judgement, due after the delay, with one retry more. Answers whether it
    // moved; otherwise nothing changes.
    pub fn add_retry(&mut self, key: K, time: u64) -> bool
        ensures answer { result ≡ retry_answer K.Ordered.own key time (fet_of self.old) }
        ensures state { fet_of self.new ≡ retry_step K.Ordered.own key time (fet_of self.old) }
    {
        let event = retry_event(self.keys.get(key), time.saturating_add(self.delay));
        if !self.keys.apply(key, event) {
            return false;
        }
        self.waiter = None;
        true
    }

    // A key that is out comes under judgement by a slip. Answers whether it moved.
    pub fn hand_out(&mut self, key: K, slip: u32) -> bool
        ensures answer { result ≡ move_answer K.Ordered.own key (Answered slip) (fet_of self.old) }
        ensures state { fet_of self.new ≡ moved K.Ordered.own key (Answered slip) (fet_of self.old) }
    {
        self.keys.apply(key, Event::Answered { slip })
    }

    // A key under judgement comes under another slip. Answers whether it moved. The one function behind this move and the
    // one before is `apply`.
    pub fn hand_on(&mut self, key: K, slip: u32) -> bool
        ensures answer { result ≡ move_answer K.Ordered.own key (Redelivered slip) (fet_of self.old) }
        ensures state { fet_of self.new ≡ moved K.Ordered.own key (Redelivered slip) (fet_of self.old) }
    {
        self.keys.apply(key, Event::Redelivered { slip })
    }

    // Retires a key: its row and its targets go. The waiter stands.
    pub fn clear(&mut self, key: K)
        ensures { fet_of self.new ≡ clear_step K.Ordered.own key (fet_of self.old) }
    {
        let _ = self.keys.remove(key);
        self.targets.clear(key);
    }

    // Keeps the keys that somebody waits for, with their targets.
    pub fn retain<S: Ordered>(&mut self, waiting: &Subscribers<K, S>)
        ensures { fet_of self.new ≡ retain_step K.Ordered.own (tab_of waiting.now.table).rows (fet_of self.old) }
    {
        retain_waited(&mut self.keys, waiting);
        self.targets.retain_live(&self.keys);
        self.waiter = None;
    }
}
