// One fetch.
ghost use Rattle.std.specs.Prelude.{◌≡◌};
ghost use Rattle.tables.specs.Tables.{tab_of};
ghost use Rattle.model.specs.Fet.{with_next};
ghost use Rattle.model.specs.Tries.{Carried, Unused};
ghost use Rattle.model.specs.Laws.{First, Quiet};
ghost use Rattle.model.specs.Fetches.{aims, queue, fetched, again, waiter_of, sent_in, fetch_answer, fetch_words, fetch_step};
ghost use Rattle.model.specs.Sends.{Fair};
ghost use Rattle.fetcher.specs.View.{fet_of};

use crate::fetcher::Fetcher;
use draw::DrawSource;
use kinds::Ordered;
use link::{Link, Message};
use live::{Event, LiveKeys};
use model::Walked;
use score::Rating;
use walk::{LIMIT, send_first};

// When to try again after a walk: not at all after a send, else at the least of the deadlines not due and the waits
// met, or without a wait after the delay if some due key had an allowed peer.
fn waiter_of<P: Ordered, K: Ordered>(walked: &Walked<P, K>, until: u64) -> Option<u64>
    ensures { result ≡ waiter_of walked.now.sent walked.now.late walked.now.wait walked.now.allowed until }
{
    if walked.sent.is_some() {
        return None;
    }
    let idle = if walked.allowed { until } else { LIMIT };
    Some(walked.late.min(walked.wait.unwrap_or(idle)))
}

// The key that was sent is out there from this time.
fn set_out<K: Ordered, P: Ordered>(
    keys: &mut LiveKeys<K, P>,
    sent: Option<Message<P, K>>,
    time: u64,
)
    ensures table { tab_of keys.new.table ≡ sent_in K.Ordered.own sent time (tab_of keys.old.table) }
    ensures queue { tab_of keys.new.queue ≡ tab_of keys.old.queue }
{
    if let Some(Message { id, peer, key }) = sent {
        let _ = keys.apply(
            key,
            Event::Sent {
                id,
                peer,
                start: time,
            },
        );
    }
}

impl<P: Ordered, V: Rating, K: Ordered> Fetcher<P, V, K> {
    // Lists the queue and walks it. The link, the source and the time are the call's own, as the port's fetch takes them;
    // each function on the way states the promises of `fetch` by their names.
    fn send_next<L: Link<P, K>, D: DrawSource>(
        &mut self,
        link: &mut L,
        source: &mut D,
        time: u64,
    ) -> Walked<P, K>
        ensures sent { result.sent ≡ (fetched P.Ordered.own K.Ordered.own (L.Link.word link.old) time (D.DrawSource.ahead source.old) (fet_of self.old)).sent }
        ensures late { result.late ≡ (fetched P.Ordered.own K.Ordered.own (L.Link.word link.old) time (D.DrawSource.ahead source.old) (fet_of self.old)).late }
        ensures wait { result.wait ≡ (fetched P.Ordered.own K.Ordered.own (L.Link.word link.old) time (D.DrawSource.ahead source.old) (fet_of self.old)).wait }
        ensures allowed { result.allowed ≡ (fetched P.Ordered.own K.Ordered.own (L.Link.word link.old) time (D.DrawSource.ahead source.old) (fet_of self.old)).allowed }
        ensures words { D.DrawSource.ahead source.new ≡ (fetched P.Ordered.own K.Ordered.own (L.Link.word link.old) time (D.DrawSource.ahead source.old) (fet_of self.old)).words }
        ensures state { fet_of self.new ≡ with_next (fetched P.Ordered.own K.Ordered.own (L.Link.word link.old) time (D.DrawSource.ahead source.old) (fet_of self.old)).next (fet_of self.old) }
        ensures unused { Unused (fet_of self.old).keys.rows result.sent }
        ensures link { Carried L.Link.count L.Link.latest link.old result.sent link.new }
        ensures first { First (L.Link.word link.old) time (fet_of self.old).roster.peers.rows (aims P.Ordered.own K.Ordered.own (fet_of self.old).targets.rows) (fet_of self.old).roster.shares (queue K.Ordered.own (fet_of self.old)) result.sent }
        ensures quiet { Quiet (L.Link.word link.old) time (fet_of self.old).roster.peers.rows (aims P.Ordered.own K.Ordered.own (fet_of self.old).targets.rows) (fet_of self.old).roster.shares (queue K.Ordered.own (fet_of self.old)) result.sent (fetched P.Ordered.own K.Ordered.own (L.Link.word link.old) time (D.DrawSource.ahead source.old) (fet_of self.old)).wait }
    {
        self.keys.list();
        send_first(
            &mut self.roster,
            &self.keys,
            &self.targets,
            link,
            source,
            &mut self.next,
            time,
        )
    }

    // Walks the queue, sets the waiter, and moves the key that was sent.
    fn send_due<L: Link<P, K>, D: DrawSource>(
        &mut self,
        link: &mut L,
        source: &mut D,
        time: u64,
    ) -> Option<Message<P, K>>
        ensures answer { result ≡ fetch_answer P.Ordered.own K.Ordered.own (L.Link.word link.old) time (D.DrawSource.ahead source.old) (fet_of self.old) }
        ensures words { D.DrawSource.ahead source.new ≡ fetch_words P.Ordered.own K.Ordered.own (L.Link.word link.old) time (D.DrawSource.ahead source.old) (fet_of self.old) }
        ensures state { fet_of self.new ≡ fetch_step P.Ordered.own K.Ordered.own (L.Link.word link.old) time (D.DrawSource.ahead source.old) (fet_of self.old) }
        ensures unused { Unused (fet_of self.old).keys.rows result }
        ensures link { Carried L.Link.count L.Link.latest link.old result link.new }
        ensures first { First (L.Link.word link.old) time (fet_of self.old).roster.peers.rows (aims P.Ordered.own K.Ordered.own (fet_of self.old).targets.rows) (fet_of self.old).roster.shares (queue K.Ordered.own (fet_of self.old)) result }
        ensures quiet { Quiet (L.Link.word link.old) time (fet_of self.old).roster.peers.rows (aims P.Ordered.own K.Ordered.own (fet_of self.old).targets.rows) (fet_of self.old).roster.shares (queue K.Ordered.own (fet_of self.old)) result (fetched P.Ordered.own K.Ordered.own (L.Link.word link.old) time (D.DrawSource.ahead source.old) (fet_of self.old)).wait }
    {
        let walked = self.send_next(link, source, time);
        self.waiter = waiter_of(&walked, time.saturating_add(self.delay));
        let sent = walked.sent;
        set_out(&mut self.keys, sent, time);
        sent
    }

    // Sends the first due key that an allowed peer takes, and answers the message: the key is then out there. Without one,
    // the waiter says when to try again.
    pub fn fetch<L: Link<P, K>, D: DrawSource>(
        &mut self,
        link: &mut L,
        source: &mut D,
        time: u64,
    ) -> Option<Message<P, K>>
        ensures answer { result ≡ fetch_answer P.Ordered.own K.Ordered.own (L.Link.word link.old) time (D.DrawSource.ahead source.old) (fet_of self.old) }
        ensures words { D.DrawSource.ahead source.new ≡ fetch_words P.Ordered.own K.Ordered.own (L.Link.word link.old) time (D.DrawSource.ahead source.old) (fet_of self.old) }
        ensures state { fet_of self.new ≡ fetch_step P.Ordered.own K.Ordered.own (L.Link.word link.old) time (D.DrawSource.ahead source.old) (fet_of self.old) }
        ensures unused { Unused (fet_of self.old).keys.rows result }
        ensures link { Carried L.Link.count L.Link.latest link.old result link.new }
        ensures quiet { Quiet (L.Link.word link.old) time (fet_of self.old).roster.peers.rows (aims P.Ordered.own K.Ordered.own (fet_of self.old).targets.rows) (fet_of self.old).roster.shares (queue K.Ordered.own (fet_of self.old)) result (fetched P.Ordered.own K.Ordered.own (L.Link.word link.old) time (D.DrawSource.ahead source.old) (fet_of self.old)).wait }
        ensures law { Fair P.Ordered.own K.Ordered.own (L.Link.word link.old) time (fet_of self.old) result (fet_of self.new) }
    {
        self.send_due(link, source, time)
    }
}
