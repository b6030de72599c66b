// The links that a script can choose, for each kind of peer.
use crate::fault::Fault;
use crate::make::Wire;
use crate::show::{Hex, Show, Shown};
use crate::term::Term;
use kinds::{Digest, Ordered, PublicKey, Seat, Station, Storable};
use link::{Lane, Lanes, Link, Message, Outbox, Pass};
use std::alloc::Global;
use std::collections::BTreeSet;
use std::fmt;

// What a link says of a peer, and to a message by hand.
#[derive(Clone, Copy)]
pub(crate) enum Reply {
    Pass,
    Accepted,
    Closed,
    Wait(u64),
}

impl fmt::Display for Reply {
    fn fmt<W: fmt::Write>(&self, f: &mut fmt::Formatter<W>) -> fmt::Result {
        match self {
            Reply::Pass => f.write_str("pass"),
            Reply::Accepted => f.write_str("accepted"),
            Reply::Closed => f.write_str("closed"),
            Reply::Wait(until) => write!(f, "wait {until}"),
        }
    }
}

// A link of a script, with its kinds of peers and keys.
pub(crate) trait Wired: Show + Drop {
    type Peer: Term;

    type Key: Term;

    // Memory and the line's words for a link, which are wanted together at the making alone.
    fn open(heap: Global, wire: Wire) -> Result<Self, Fault>;

    // What the link says of a peer: pass or wait.
    fn check(&self, time: u64, peer: Self::Peer) -> Reply;

    // Checks, and sends under the pass.
    fn send(&mut self, time: u64, message: Message<Self::Peer, Self::Key>) -> Reply;

    // The owner sets the lane of a station: the two words of a line.
    fn set_lane(&mut self, station: Station, lane: Lane) -> Result<(), Fault>;
}

// What was expected where there is no such lane.
const A_LANE: Fault = Fault::Expected(
    "a lane link, a station from 0 to 255, and a time below 2^63",
);

// A pass that is not sent under is taken apart.
fn check_over<P: Ordered, K: Ordered, L: Link<P, K>>(link: &L, time: u64, peer: P) -> Reply {
    match link.check(peer, time) {
        Ok(Pass { peer: _, time: _ }) => Reply::Pass,
        Err(until) => Reply::Wait(until),
    }
}

fn send_over<P: Ordered, K: Ordered, L: Link<P, K>>(
    link: &mut L,
    time: u64,
    message: Message<P, K>,
) -> Reply {
    match link.check(message.peer, time) {
        Ok(pass) => if link.send(pass, message.id, message.key) {
            Reply::Accepted
        } else {
            Reply::Closed
        },
        Err(until) => Reply::Wait(until),
    }
}

// How many messages a link took, and the latest of them.
#[derive(Clone, Copy)]
struct Taken<P, K> {
    count: u64,
    latest: Option<Message<P, K>>,
}

impl<P: Show, K: Show> fmt::Display for Taken<P, K> {
    fn fmt<W: fmt::Write>(&self, f: &mut fmt::Formatter<W>) -> fmt::Result {
        write!(f, "link count={} latest=", self.count)?;
        match &self.latest {
            Some(message) => write!(
                f,
                "{},{},{}",
                message.id,
                Shown(&message.peer),
                Shown(&message.key),
            ),
            None => f.write_str("-"),
        }
    }
}

// The lane of a station.
#[derive(Clone, Copy)]
struct LaneAt {
    station: u32,
    lane: Lane,
}

impl fmt::Display for LaneAt {
    fn fmt<W: fmt::Write>(&self, f: &mut fmt::Formatter<W>) -> fmt::Result {
        match self.lane {
            None => write!(f, "{}:closed", self.station),
            Some(time) => write!(f, "{}:{time}", self.station),
        }
    }
}

// The lanes, and which of them were ever sent on or set.
#[derive(Drop)]
pub(crate) struct LaneLink {
    lanes: Lanes<Seat>,
    touched: BTreeSet<u32>,
}

impl LaneLink {
    fn open(heap: Global, spacing: u64) -> Result<LaneLink, Fault> {
        Ok(LaneLink {
            lanes: Lanes::new(spacing)?,
            touched: BTreeSet::new(heap),
        })
    }

    fn lane_at(&self, station: u32) -> LaneAt {
        LaneAt {
            station,
            lane: self.lanes.lane(Station(station)),
        }
    }

    // Notes a station; without memory it is only not shown.
    fn touch(&mut self, station: Station) {
        let _ = self.touched.insert(station.0);
    }

    fn send(&mut self, time: u64, message: Message<Station, Seat>) -> Reply {
        let reply = send_over(&mut self.lanes, time, message);
        if matches!(reply, Reply::Accepted) {
            self.touch(message.peer);
        }
        reply
    }

    // Answers whether there is such a lane.
    fn set(&mut self, station: Station, lane: Lane) -> bool {
        self.touch(station);
        match lane {
            None => self.lanes.close(station),
            Some(time) => self.lanes.set_free(station, time),
        }
    }
}

impl fmt::Display for LaneLink {
    fn fmt<W: fmt::Write>(&self, f: &mut fmt::Formatter<W>) -> fmt::Result {
        let taken = Taken {
            count: self.lanes.count(),
            latest: self.lanes.latest(),
        };
        write!(f, "{taken} lanes=")?;
        if self.touched.is_empty() {
            return f.write_str("-");
        }
        f.write_joined(
            self.touched.iter().map(|station| self.lane_at(*station)),
            ",",
        )
    }
}

// The links to numbered stations. The lanes are in a box: they take 4 KiB, which each move of a house would copy.
#[derive(Drop)]
pub(crate) enum StationLink {
    Lanes(Box<LaneLink>),
    Outbox(Outbox<Station, Seat>),
}

impl Show for StationLink {
    fn show<W: fmt::Write>(&self, f: &mut fmt::Formatter<W>) -> fmt::Result {
        match self {
            StationLink::Lanes(l) => write!(f, "{l}"),
            StationLink::Outbox(o) => o.show(f),
        }
    }
}

impl Wired for StationLink {
    type Peer = Station;

    type Key = Seat;

    fn open(heap: Global, wire: Wire) -> Result<StationLink, Fault> {
        match wire {
            Wire::Lane(spacing) => {
                let lanes = LaneLink::open(heap, spacing)?;
                Ok(StationLink::Lanes(Box::new(heap, lanes)?))
            }
            Wire::Outbox(bytes) => Ok(StationLink::Outbox(Outbox::new(heap, bytes as usize)?)),
        }
    }

    fn check(&self, time: u64, peer: Station) -> Reply {
        match self {
            StationLink::Lanes(l) => check_over(&l.lanes, time, peer),
            StationLink::Outbox(o) => check_over(o, time, peer),
        }
    }

    fn send(&mut self, time: u64, message: Message<Station, Seat>) -> Reply {
        match self {
            StationLink::Lanes(l) => l.send(time, message),
            StationLink::Outbox(o) => send_over(o, time, message),
        }
    }

    fn set_lane(&mut self, station: Station, lane: Lane) -> Result<(), Fault> {
        let StationLink::Lanes(l) = self else {
            return Err(A_LANE);
        };
        if l.set(station, lane) {
            Ok(())
        } else {
            Err(A_LANE)
        }
    }
}

impl<P: Storable + Show, K: Storable + Show> Show for Outbox<P, K> {
    fn show<W: fmt::Write>(&self, f: &mut fmt::Formatter<W>) -> fmt::Result {
        let taken = Taken {
            count: self.count(),
            latest: self.latest(),
        };
        let bytes = self.bytes();
        write!(f, "{taken} outbox={}:{}", bytes.len(), Hex(bytes))
    }
}

// The one link to stations by public key: lanes are for numbered stations.
pub(crate) type KeyLink = Outbox<PublicKey, Digest>;

impl Wired for KeyLink {
    type Peer = PublicKey;

    type Key = Digest;

    fn open(heap: Global, wire: Wire) -> Result<KeyLink, Fault> {
        match wire {
            Wire::Lane(_) => Err(Fault::Expected(
                "link=outbox:BYTES: lanes are for numbered stations",
            )),
            Wire::Outbox(bytes) => Ok(Outbox::new(heap, bytes as usize)?),
        }
    }

    fn check(&self, time: u64, peer: PublicKey) -> Reply {
        check_over(self, time, peer)
    }

    fn send(&mut self, time: u64, message: Message<PublicKey, Digest>) -> Reply {
        send_over(self, time, message)
    }

    fn set_lane(&mut self, _station: Station, _lane: Lane) -> Result<(), Fault> {
        Err(A_LANE)
    }
}
