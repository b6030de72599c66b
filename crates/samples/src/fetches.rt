// Fetches on examples.
use draw::Supplied;
use fetcher::Fetcher;
use kinds::{Seat, Station};
use link::{Lanes, Message};
use live::{LiveKeys, Stage};
use roster::Participants;
use score::{Rating, Score};
use std::alloc::Global;
use std::test::Fail;
use tables::{Only, Table};
use trackers::Targets;

const SECOND: u64 = 1_000_000_000;

fn seat(n: u16) -> Seat {
    Seat {
        performance: 1,
        seat: n,
    }
}

// A fetcher of station 1 with a timeout of two seconds and a delay of one, over a roster of three stations.
fn fetcher(heap: Global) -> Result<Fetcher<Station, Score, Seat>, Fail> {
    let Ok(roster) = Participants::new(heap, 7, 4) else {
        return Err(Fail::new("no roster"));
    };
    let Ok(blocked) = Table::<Only<Station>>::new(heap, 7, 4, 1_024) else {
        return Err(Fail::new("no blocked list"));
    };
    let Ok(keys) = LiveKeys::new(heap, 7, 4) else {
        return Err(Fail::new("no keys"));
    };
    let Ok(targets) = Targets::new(heap, 7, 4) else {
        return Err(Fail::new("no targets"));
    };
    let mut all = Fetcher::new(
        7,
        2 * SECOND,
        SECOND,
        Some(Station(1)),
        roster,
        blocked,
        keys,
        targets,
    );
    if !all.reconcile(&[Station(1), Station(2), Station(3)]) {
        return Err(Fail::new("the roster is not taken over"));
    }
    Ok(all)
}

fn lanes() -> Result<Lanes<Seat>, Fail> {
    match Lanes::new(SECOND) {
        Ok(lanes) => Ok(lanes),
        Err(_) => Err(Fail::new("the spacing is refused")),
    }
}

fn source(heap: Global, first: u64) -> Result<Supplied, Fail> {
    let mut words = Vec::with_capacity(heap, 1)?;
    words.push(first)?;
    Ok(Supplied::new(words))
}

// The id of a message, or a failure.
fn id_of(sent: Option<Message<Station, Seat>>) -> Result<u64, Fail> {
    match sent {
        Some(message) => Ok(message.id),
        None => Err(Fail::new("nothing was sent")),
    }
}

// The first key's only target is closed: the second key goes, to the first weight's peer.
#[test]
fn next_key_goes(rt: HostRuntime) -> Result<(), Fail> {
    let mut all = fetcher(rt.alloc())?;
    let mut link = lanes()?;
    let mut words = source(rt.alloc(), 0)?;
    assert!(rt; link.close(Station(3)));
    assert!(rt; all.add_ready(seat(1), 5));
    assert!(rt; all.add_targets(seat(1), &[Station(3)]));
    assert!(rt; all.add_ready(seat(2), 5));
    let Some(sent) = all.fetch(&mut link, &mut words, 5) else {
        return Err(Fail::new("nothing was sent"));
    };
    assert_eq!(rt; sent.key.seat, 2);
    assert_eq!(rt; sent.peer.0, 2);
    assert_eq!(rt; link.count(), 1);
    assert_eq!(rt; all.len_pending(), 1);
    assert_eq!(rt; all.len_active(), 1);
    assert_eq!(rt; all.get_active_deadline(), Some(2 * SECOND + 5));
    Ok(())
}

// A key that is aimed at nobody is not sent, and nothing wakes the queue.
#[test]
fn aimed_at_nobody(rt: HostRuntime) -> Result<(), Fail> {
    let mut all = fetcher(rt.alloc())?;
    let mut link = lanes()?;
    let mut words = source(rt.alloc(), 0)?;
    assert!(rt; all.add_ready(seat(1), 5));
    assert!(rt; all.add_targets(seat(1), &[]));
    assert!(rt; all.fetch(&mut link, &mut words, 9).is_none());
    assert_eq!(rt; all.waiter, Some(0x7fff_ffff_ffff_ffff));
    assert_eq!(rt; link.count(), 0);
    Ok(())
}

// The last id is followed by 0, and a wait is heard.
#[test]
fn ids_wrap(rt: HostRuntime) -> Result<(), Fail> {
    let mut all = fetcher(rt.alloc())?;
    let mut link = lanes()?;
    let mut words = source(rt.alloc(), 0)?;
    all.next = Some(0xffff_ffff_ffff_ffff);
    assert!(rt; all.add_ready(seat(1), 0));
    assert!(rt; all.add_ready(seat(2), 0));
    assert!(rt; all.add_ready(seat(3), 0));
    assert_eq!(rt;
        id_of(all.fetch(&mut link, &mut words, 0))?,
        0xffff_ffff_ffff_ffff
    );
    assert_eq!(rt; id_of(all.fetch(&mut link, &mut words, 0))?, 0);
    assert!(rt; all.fetch(&mut link, &mut words, 0).is_none());
    assert_eq!(rt; all.waiter, Some(SECOND));
    Ok(())
}

// A missing answer is charged, and its key is queued again after the delay.
#[test]
fn missing_again(rt: HostRuntime) -> Result<(), Fail> {
    let mut all = fetcher(rt.alloc())?;
    let mut link = lanes()?;
    let mut words = source(rt.alloc(), 0)?;
    assert!(rt; all.add_ready(seat(1), 0));
    all.next = Some(4);
    assert_eq!(rt; id_of(all.fetch(&mut link, &mut words, 0))?, 4);
    assert!(rt; all.pop_missing(5, Station(2), 10).is_none());
    let Some(key) = all.pop_missing(4, Station(2), 10) else {
        return Err(Fail::new("the request is gone"));
    };
    assert!(rt; all.add_retry(key, 10));
    assert_eq!(rt; all.weight(Station(2)), Some(1));
    assert_eq!(rt; all.get_pending_deadline(), Some(SECOND + 10));
    match all.place(key) {
        Some(
            Stage::Queued {
                retried,
                deadline: _,
            },
        ) => {
            assert!(rt; retried);
            Ok(())
        },
        _ => Err(Fail::new("the key is not queued")),
    }
}
