// One call of a script: what it asks of a house, and what the house answers.
use crate::fault::{CallError, Fault, Refusal};
use crate::house::House;
use crate::show::{Listed, Show};
use crate::term::{Term, list, number_or};
use crate::watch::Watch;
use crate::wired::{Reply, Wired};
use kinds::Station;
use link::{Lane, Message};
use score::Rating;
use std::fmt;
use std::str::FromStr;

// The latest time that a call takes: 2^62 - 1.
const LATEST: u64 = 4_611_686_018_427_387_903;

// The calls that a script may name.
#[derive(Clone, Copy)]
pub(crate) enum Call {
    Reconcile,
    SetBlocked,
    Record,
    Order,
    Check,
    Send,
    Lane,
    Ask,
}

impl FromStr for Call {
    type Err = Fault;

    fn from_str(name: &str) -> Result<Call, Fault> {
        match name {
            "reconcile" => Ok(Call::Reconcile),
            "set_blocked" => Ok(Call::SetBlocked),
            "record" => Ok(Call::Record),
            "order" => Ok(Call::Order),
            "check" => Ok(Call::Check),
            "send" => Ok(Call::Send),
            "lane" => Ok(Call::Lane),
            "ask" => Ok(Call::Ask),
            "want"
            | "add_targets"
            | "clear_targets"
            | "fetch"
            | "expire"
            | "response"
            | "missing"
            | "verdict"
            | "retain"
            | "setid"
            | "setretries" => Err(Fault::NotYet),
            _ => Err(Fault::Expected(
                "make, reconcile, set_blocked, record, order, check, send, lane or ask",
            )),
        }
    }
}

// A call with the words after its name.
#[derive(Clone, Copy)]
pub(crate) struct Request<'a> {
    pub(crate) call: Call,
    pub(crate) words: &'a [&'a str],
}

// What a house answers. A weight is absent for a peer that is not on the roster.
#[derive(Drop)]
pub(crate) enum Answer<P> {
    Done,
    Order(Vec<P>),
    Weight(Option<u64>),
    Link(Reply),
}

impl<P: Show> fmt::Display for Answer<P> {
    fn fmt<W: fmt::Write>(&self, f: &mut fmt::Formatter<W>) -> fmt::Result {
        match self {
            Answer::Done => f.write_str("done"),
            Answer::Order(peers) => write!(f, "order {}", Listed(peers.as_slice())),
            Answer::Weight(Some(weight)) => write!(f, "{weight}"),
            Answer::Weight(None) => f.write_str("-"),
            Answer::Link(reply) => write!(f, "{reply}"),
        }
    }
}

// Refuses what every call refuses: a part of another engine number, and a time that is too late.
fn judge(engine: u32, part: u32, time: u64) -> Result<(), Refusal> {
    if part != engine {
        return Err(Refusal::Engine);
    }
    if time > LATEST {
        return Err(Refusal::Time);
    }
    Ok(())
}

// The engine number of the part that is handed in: the house's own, or that after an `@`.
fn part_of(engine: u32, words: &[&str]) -> Result<u32, Fault> {
    match words {
        [] => Ok(engine),
        [word] => match word.strip_prefix('@') {
            Some(n) => number_or(n, "@E, a 32-bit engine number"),
            None => Err(Fault::Expected("the end of the line, or @E")),
        },
        _ => Err(Fault::Expected("the end of the line, or @E")),
    }
}

fn time_of(text: &str) -> Result<u64, Fault> {
    number_or(text, "a time in nanoseconds")
}

fn peer_of<P: Term>(text: &str) -> Result<P, Fault> {
    P::read(text).ok_or(Fault::Expected("a station"))
}

// The list handed to `reconcile` or `set_blocked`.
fn list_of<L: Wired, R: Rating>(
    house: &House<L, R>,
    words: &[&str],
) -> Result<Vec<L::Peer>, CallError> {
    let [time, peers, rest @ ..] = words else {
        return Err(CallError::Fault(Fault::Expected("TIME LIST")));
    };
    let time = time_of(time)?;
    let peers = list(house.heap(), peers)?;
    let part = part_of(house.engine(), rest)?;
    judge(house.engine(), part, time)?;
    Ok(peers)
}

// Makes a call with the list of its line: `reconcile` or `set_blocked`.
fn with_list<L: Wired, R: Rating, F: FnOnce(&mut House<L, R>, &[L::Peer]) -> Result<(), Refusal>>(
    watch: &mut Watch<'_>,
    house: &mut House<L, R>,
    words: &[&str],
    call: F,
) -> Result<Answer<L::Peer>, CallError>
    requires { F.IsAlwaysCallable call }
{
    let list = list_of(house, words)?;
    watch.time(|| call(house, list.as_slice()))?;
    Ok(Answer::Done)
}

// Each other call is a function over the house and the words of its line, which mean something else at each.
fn record<L: Wired, R: Rating>(
    house: &mut House<L, R>,
    words: &[&str],
) -> Result<Answer<L::Peer>, Fault> {
    let [peer, size, elapsed] = words else {
        return Err(Fault::Expected("record PEER LENGTH ELAPSED"));
    };
    let peer = peer_of(peer)?;
    let size = number_or(size, "a length in bytes")?;
    let elapsed = time_of(elapsed)?;
    house.record(peer, elapsed, size);
    Ok(Answer::Done)
}

fn order<L: Wired, R: Rating>(
    house: &mut House<L, R>,
    words: &[&str],
) -> Result<Answer<L::Peer>, Fault> {
    let [retries] = words else {
        return Err(Fault::Expected("order RETRIES"));
    };
    let retries = number_or(retries, "a 32-bit number of retries")?;
    Ok(Answer::Order(house.order(retries)?))
}

fn check<L: Wired, R: Rating>(
    house: &House<L, R>,
    words: &[&str],
) -> Result<Answer<L::Peer>, Fault> {
    let [time, peer] = words else {
        return Err(Fault::Expected("check TIME PEER"));
    };
    let time = time_of(time)?;
    Ok(Answer::Link(house.check(time, peer_of(peer)?)))
}

fn send<L: Wired, R: Rating>(
    house: &mut House<L, R>,
    words: &[&str],
) -> Result<Answer<L::Peer>, Fault> {
    let [time, id, peer, key] = words else {
        return Err(Fault::Expected("send TIME ID PEER KEY"));
    };
    let time = time_of(time)?;
    let id = number_or(id, "a 64-bit id")?;
    let peer = peer_of(peer)?;
    let key = L::Key::read(key).ok_or(Fault::Expected(
        "a key, as 77:12, or 64 hexadecimal digits",
    ))?;
    Ok(Answer::Link(house.send(time, Message { id, peer, key })))
}

fn lane_of(text: &str) -> Result<Lane, Fault> {
    if text == "closed" {
        return Ok(None);
    }
    Ok(Some(number_or(text, "closed, or a time below 2^63")?))
}

fn lane<L: Wired, R: Rating>(
    house: &mut House<L, R>,
    words: &[&str],
) -> Result<Answer<L::Peer>, Fault> {
    let [station, state] = words else {
        return Err(Fault::Expected("lane STATION closed, or lane STATION TIME"));
    };
    let station = Station::read(station).ok_or(Fault::Expected("a station from 0 to 255"))?;
    house.set_lane(station, lane_of(state)?)?;
    Ok(Answer::Done)
}

fn ask<L: Wired, R: Rating>(house: &House<L, R>, words: &[&str]) -> Result<Answer<L::Peer>, Fault> {
    let ["weight", peer] = words else {
        return Err(Fault::Expected("ask weight PEER"));
    };
    Ok(Answer::Weight(house.weight(peer_of(peer)?)))
}

impl Request<'_> {
    // The watch is kept beside the house, since it outlives each house.
    pub(crate) fn obey<L: Wired, R: Rating>(
        self,
        watch: &mut Watch<'_>,
        house: &mut House<L, R>,
    ) -> Result<Answer<L::Peer>, CallError> {
        match self.call {
            Call::Reconcile => with_list(watch, house, self.words, |h, list| h.reconcile(list)),
            Call::SetBlocked => with_list(watch, house, self.words, |h, list| h.set_blocked(list)),
            Call::Record => Ok(record(house, self.words)?),
            Call::Order => Ok(order(house, self.words)?),
            Call::Check => Ok(check(house, self.words)?),
            Call::Send => Ok(send(house, self.words)?),
            Call::Lane => Ok(lane(house, self.words)?),
            Call::Ask => Ok(ask(house, self.words)?),
        }
    }
}
