// A house: its roster, its blocked list, its link and its draw source.
use crate::fault::{Fault, Refusal};
use crate::make::Make;
use crate::show::{Listed, Show, Shown};
use crate::source::Source;
use crate::term::Term;
use crate::wired::{Reply, Wired};
use draw::order_of;
use kinds::Station;
use link::{Lane, Message};
use roster::{Excluded, Participants};
use score::Rating;
use std::alloc::Global;
use std::fmt;
use tables::{Only, Table, fits_table};

// Rows at most of a blocked list.
const MOST_BLOCKED: usize = 1_024;

#[derive(Drop)]
pub(crate) struct House<L: Wired, R: Rating> {
    heap: Global,
    me: Option<L::Peer>,
    roster: Participants<L::Peer, R>,
    blocked: Table<Only<L::Peer>>,
    link: L,
    source: Source,
}

fn own<P: Term>(text: &str) -> Result<Option<P>, Fault> {
    if text == "-" {
        return Ok(None);
    }
    let me = P::read(text).ok_or(Fault::Expected("me= and a station, or me=-"))?;
    Ok(Some(me))
}

impl<L: Wired, R: Rating> House<L, R> {
    // A new house, as a good make line says.
    pub(crate) fn new(heap: Global, make: Make<'_>) -> Result<House<L, R>, Fault> {
        let Make {
            engine,
            me,
            rows,
            link,
            source,
            ..
        } = make;
        Ok(House {
            heap,
            me: own(me)?,
            link: L::open(heap, link)?,
            roster: Participants::new(heap, engine, rows.roster as usize)?,
            blocked: Table::new(heap, engine, rows.blocked as usize, MOST_BLOCKED)?,
            source: Source::from(source),
        })
    }

    pub(crate) fn heap(&self) -> Global {
        self.heap
    }

    pub(crate) fn engine(&self) -> u32 {
        self.roster.engine()
    }

    // Makes the list the roster. Refused for a list out of order, with a repeat or longer than its table.
    pub(crate) fn reconcile(&mut self, list: &[L::Peer]) -> Result<(), Refusal> {
        let excluded = Excluded {
            own: self.me,
            blocked: &self.blocked,
        };
        if !fits_table(list, self.roster.most()) || !self.roster.reconcile(list, excluded) {
            return Err(Refusal::List);
        }
        Ok(())
    }

    // Replaces the blocked list and weighs the roster anew; refused as for a roster.
    pub(crate) fn set_blocked(&mut self, list: &[L::Peer]) -> Result<(), Refusal> {
        if !fits_table(list, self.blocked.most()) || !self.blocked.fill(list) {
            return Err(Refusal::List);
        }
        self.roster.weigh(Excluded {
            own: self.me,
            blocked: &self.blocked,
        });
        Ok(())
    }

    // Records a reply; nothing happens if the peer is not on the roster.
    pub(crate) fn record(&mut self, peer: L::Peer, elapsed: u64, size: u64) {
        self.roster.record(peer, elapsed, size);
    }

    pub(crate) fn weight(&self, peer: L::Peer) -> Option<u64> {
        self.roster.weight(peer)
    }

    pub(crate) fn check(&self, time: u64, peer: L::Peer) -> Reply {
        self.link.check(time, peer)
    }

    pub(crate) fn send(&mut self, time: u64, message: Message<L::Peer, L::Key>) -> Reply {
        self.link.send(time, message)
    }

    pub(crate) fn set_lane(&mut self, station: Station, lane: Lane) -> Result<(), Fault> {
        self.link.set_lane(station, lane)
    }

    // The places of the roster in the order in which they would be asked after a number of retries.
    fn places(&mut self, retries: u32) -> Result<Vec<usize>, Fault> {
        let mut shares = self.roster.shares.rows.clone()?;
        let rows = shares.as_mut_slice();
        match &mut self.source {
            Source::List(words) => Ok(order_of(self.heap, rows, words, retries)?),
            Source::Xorshift(words) => Ok(order_of(self.heap, rows, words, retries)?),
        }
    }

    // The order in which the stations would be asked.
    pub(crate) fn order(&mut self, retries: u32) -> Result<Vec<L::Peer>, Fault> {
        let places = self.places(retries)?;
        let peers = places
            .iter()
            .filter_map(|place| self.roster.peers.at(*place))
            .map(|row| row.peer)
            .collect(self.heap)?;
        Ok(peers)
    }
}

impl<L: Wired, R: Rating + Show> House<L, R> {
    // The line of the roster: each peer with its weight and its rating.
    fn show_roster<W: fmt::Write>(&self, f: &mut fmt::Formatter<W>) -> fmt::Result {
        f.write_str("roster")?;
        if self.roster.len() == 0 {
            f.write_str(" -")?;
        }
        let shares = self.roster.shares.rows.as_slice();
        for (row, share) in self.roster.peers.rows().iter().zip(shares.iter()) {
            write!(
                f,
                " {}={}{}",
                Shown(&row.peer),
                share.weight,
                Shown(&row.rating)
            )?;
        }
        writeln!(f)
    }
}

// The lines of a trace that show what the house holds.
impl<L: Wired, R: Rating + Show> fmt::Display for House<L, R> {
    fn fmt<W: fmt::Write>(&self, f: &mut fmt::Formatter<W>) -> fmt::Result {
        self.show_roster(f)?;
        writeln!(f, "blocked {}", Listed(self.blocked.rows()))?;
        writeln!(f, "draws words={}", self.source.taken())?;
        writeln!(f, "{}", Shown(&self.link))
    }
}
