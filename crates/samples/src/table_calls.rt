// The tables on examples.
use kinds::{Seat, Station};
use live::{Event, LiveKeys, QueueRow, Turn};
use roster::{Excluded, Participants};
use score::{Rating, Score};
use std::test::Fail;
use tables::{Only, Table, fits_table};
use trackers::{SlipNumber, SlipRow, Slips};
use waiting::{SubscriberGone, Subscribers};

fn seat(n: u16) -> Seat {
    Seat {
        performance: 1,
        seat: n,
    }
}

#[test]
fn table_bounds(rt: HostRuntime) {
    let none: Option<u8> = match Table::<Only<Station>>::new(rt.alloc(), 7, 0, 4) {
        Ok(_) => None,
        Err(e) => e.number(),
    };
    assert_eq!(rt; none, Some(2));
    let over: Option<u8> = match Table::<Only<Station>>::new(rt.alloc(), 7, 5, 4) {
        Ok(_) => None,
        Err(e) => e.number(),
    };
    assert_eq!(rt; over, Some(2));
}

#[test]
fn lists(rt: HostRuntime) {
    assert!(rt; fits_table(&[Station(1), Station(3)], 2));
    assert!(rt; !fits_table(&[Station(1), Station(1)], 2));
    assert!(rt; !fits_table(&[Station(1), Station(2), Station(3)], 2));
}

// A blocked fresh peer credited with 1,000 bytes in a second stays at 0; unblocked it weighs 1,001.
#[test]
fn credit_while_blocked(rt: HostRuntime) -> Result<(), Fail> {
    let Ok(mut blocked) = Table::<Only<Station>>::new(rt.alloc(), 7, 4, 1_024) else {
        return Err(Fail::new("no table"));
    };
    let Ok(mut roster) = Participants::<Station, Score>::new(rt.alloc(), 7, 4) else {
        return Err(Fail::new("no roster"));
    };
    assert!(rt; blocked.fill(&[Station(2)]));
    assert!(rt;
        roster.reconcile(
            &[Station(1), Station(2), Station(3)],
            Excluded {
                own: Some(Station(1)),
                blocked: &blocked,
            },
        )
    );
    roster.record(Station(2), 1_000_000_000, 1_000);
    assert_eq!(rt; roster.weight(Station(1)), Some(0));
    assert_eq!(rt; roster.weight(Station(2)), Some(0));
    assert_eq!(rt; roster.weight(Station(3)), Some(1));
    assert!(rt; blocked.fill(&[]));
    roster.weigh(Excluded {
        own: Some(Station(1)),
        blocked: &blocked,
    });
    assert_eq!(rt; roster.weight(Station(2)), Some(1_001));
    assert!(rt;
        roster.reconcile(
            &[Station(2), Station(4)],
            Excluded {
                own: None,
                blocked: &blocked,
            },
        )
    );
    assert_eq!(rt; roster.weight(Station(2)), Some(1_001));
    assert_eq!(rt; roster.weight(Station(4)), Some(1));
    assert_eq!(rt; roster.weight(Station(1)), None);
    Ok(())
}

// Fresh keys go before retried ones, then earlier deadlines.
#[test]
fn queue_order(rt: HostRuntime) -> Result<(), Fail> {
    let Ok(mut keys) = LiveKeys::<Seat, Station>::new(rt.alloc(), 7, 8) else {
        return Err(Fail::new("no keys"));
    };
    assert!(rt; keys.insert(seat(1), false, 5));
    assert!(rt; keys.insert(seat(2), false, 4));
    assert!(rt; keys.insert(seat(3), false, 9));
    assert!(rt;
        keys.apply(
            seat(2),
            Event::Sent {
                id: 40,
                peer: Station(6),
                start: 10,
            },
        )
    );
    assert!(rt;
        !keys.apply(
            seat(2),
            Event::Sent {
                id: 41,
                peer: Station(6),
                start: 10,
            },
        )
    );
    assert!(rt; keys.is_out(40));
    assert!(rt; !keys.is_out(41));
    assert!(rt; keys.apply(seat(2), Event::Returned { deadline: 1 }));
    keys.list();
    assert!(rt; keys.queue.len() == 3);
    let Some(first) = keys.queue.at(0) else {
        return Err(Fail::new("no first"));
    };
    assert_eq!(rt; first.key.seat, 1);
    let Some(last) = keys.queue.at(2) else {
        return Err(Fail::new("no last"));
    };
    assert_eq!(rt; last.key.seat, 2);
    assert_eq!(rt; last.retries, 1);
    Ok(())
}

// What is queued after a turn may be asked of any round, also of one that no key has.
#[test]
fn after_any_round(rt: HostRuntime) -> Result<(), Fail> {
    let Ok(mut keys) = LiveKeys::<Seat, Station>::new(rt.alloc(), 7, 8) else {
        return Err(Fail::new("no keys"));
    };
    assert!(rt; keys.insert(seat(1), false, 5));
    let mut last = QueueRow {
        turn: Turn {
            round: 0,
            deadline: 5,
        },
        key: seat(0),
        aimed: false,
        retries: 0,
    };
    assert!(rt; keys.next_queued(last).is_some());
    last.turn.round = 2;
    assert!(rt; keys.next_queued(last).is_none());
    Ok(())
}

// A delivered subscriber that left keeps its pair until the delivery ends.
#[test]
fn delivery(rt: HostRuntime) -> Result<(), Fail> {
    let Ok(mut waiting) = Subscribers::<Seat, Station>::new(rt.alloc(), 7, 8) else {
        return Err(Fail::new("no table"));
    };
    assert_eq!(rt;
        waiting.count_new(seat(1), &[Station(5), Station(4), Station(5)]),
        2
    );
    waiting.insert(seat(1), &[Station(5), Station(4), Station(5)]);
    waiting.deliver(seat(1));
    waiting.insert(seat(1), &[Station(9)]);
    waiting.retain(&SubscriberGone {
        subscriber: Station(4),
    });
    assert!(rt; !waiting.waits(seat(1), Station(4)));
    assert!(rt; waiting.has_pair(seat(1), Station(4)));
    let Some(first) = waiting.delivered(seat(1), 0) else {
        return Err(Fail::new("no first"));
    };
    assert_eq!(rt; first.0, 4);
    waiting.remove_delivered(seat(1));
    assert!(rt; waiting.contains(seat(1)));
    assert!(rt; waiting.waits(seat(1), Station(9)));
    assert!(rt; !waiting.waits(seat(1), Station(5)));
    assert!(rt; !waiting.has_pair(seat(1), Station(5)));
    assert!(rt; !waiting.contains(seat(2)));
    Ok(())
}

// 0 follows the last number, and outstanding ones are passed over.
#[test]
fn slip_numbers(rt: HostRuntime) -> Result<(), Fail> {
    let Ok(mut slips) = Slips::<Seat, Station>::new(rt.alloc(), 7, 2) else {
        return Err(Fail::new("no table"));
    };
    let row = SlipRow {
        slip: SlipNumber { number: 0 },
        key: seat(1),
        peer: Station(1),
        elapsed: 0,
        size: 0,
        bytes: 0,
        accepted: false,
    };
    assert_eq!(rt; slips.open(row), Some(0));
    assert_eq!(rt; slips.open(row), Some(1));
    assert_eq!(rt; slips.open(row), None);
    assert!(rt; slips.free(1).is_some());
    assert_eq!(rt; slips.open(row), Some(1));
    assert!(rt; slips.free(0).is_some());
    assert_eq!(rt; slips.next(), Some(0));
    Ok(())
}
