// The lane link: to each station one message, then none until the spacing is over.
ghost use Rattle.std.specs.Prelude.{◌≡◌, ◌^◌, ◌<◌, ◌&&◌, nat_lt};
ghost use Rattle.link.specs.Lanes.{lane_of, Within, free_from, free_after};
ghost use Rattle.link.specs.LaneCalls.{number_of, Opened, station_word, Changed, ChangedIf, Passed};
ghost use Rattle.link.specs.Meaning.{Sends};
ghost use Rattle.std.proofs.Common.{rules};

use crate::Link;
use crate::lane::{Lane, Refusal};
use crate::lanes::Lanes;
use crate::pass::Pass;
use crate::tally::Tally;
use crate::words::Message;
use kinds::{Ordered, Station};

// The longest spacing.
const MOST_SPACING: u64 = 3_600_000_000_000;

// The last time from which a lane can be free.
const LAST_FREE: u64 = 0x7fff_ffff_ffff_ffff;

// The number of a refusal.
impl From<Refusal> for u8 {
    ghost from_gives = { λ refusal number. number ≡ number_of refusal };

    fn from(refusal: Refusal) -> u8 {
        match refusal {
            Refusal::Spacing => 1,
        }
    }
}

// The lane of a station.
fn lane_of(lanes: &[Lane; 256], station: u32) -> Lane
    ensures lane { result ≡ lane_of lanes.now station }
    ensures within { Within station result }
{
    *lanes.get(station as usize)?
}

// When a lane is free again after a send.
fn free_after(time: u64, spacing: u64) -> u64
    ensures free { result ≡ free_after time spacing }
    ensures timely { result < 2 ^ 63 }
{
    time.saturating_add(spacing).min(LAST_FREE)
}

impl<K: Ordered> Lanes<K> {
    // New lanes, all free from 0 on.
    pub fn new(spacing: u64) -> Result<Lanes<K>, Refusal>
        ensures { Opened spacing result }
    {
        if spacing > MOST_SPACING {
            return Err(Refusal::Spacing);
        }
        Ok(Lanes {
            lanes: [Some(0); 256],
            spacing,
            tally: Tally::new(),
        })
    }

    // The lane of a station.
    pub fn lane(&self, station: Station) -> Lane
        ensures { result ≡ lane_of self.now.lanes station.0 }
    {
        lane_of(&self.lanes, station.0)
    }

    // The spacing between two messages on a lane.
    pub fn spacing(&self) -> u64
        ensures { result ≡ self.now.spacing }
    {
        self.spacing
    }

    // How many messages were taken, modulo 2^64. Each link reads its own tally, here and in `latest`.
    pub fn count(&self) -> u64
        ensures { result ≡ self.now.tally.count }
    {
        self.tally.count
    }

    // The latest message taken.
    pub fn latest(&self) -> Option<Message<Station, K>>
        ensures { result ≡ self.now.tally.latest }
    {
        self.tally.latest
    }

    // Makes the lane of a station another.
    fn put(&mut self, station: u32, lane: Lane)
        requires within { station < 256 }
        requires soon { free_from lane < 2 ^ 63 }
        ensures { Changed station lane self.old self.new }
    {
        self.lanes[station as usize] = lane;
    }

    // Closes the lane of a station below 256. A yes or no: a `Result` with the one
    // reason to refuse would say no more.
    pub fn close(&mut self, station: Station) -> bool
        ensures answer { result ≡ nat_lt station.0 256 }
        ensures lanes { ChangedIf result station.0 None self.old self.new }
    {
        if station.0 >= 256 {
            return false;
        }
        self.put(station.0, None);
        true
    }

    // Makes the lane of a station below 256 free from a time below 2^63 on. A yes or no: the caller knows either
    // reason to refuse, and a `Result` would say no more.
    pub fn set_free(&mut self, station: Station, time: u64) -> bool
        ensures answer { result ≡ (nat_lt station.0 256 && nat_lt time (2 ^ 63)) }
        ensures lanes { ChangedIf result station.0 (Some time) self.old self.new }
    {
        if station.0 >= 256 || time > LAST_FREE {
            return false;
        }
        self.put(station.0, Some(time));
        true
    }
}

impl<K: Ordered> Link<Station, K> for Lanes<K> {
    ghost word = { station_word };

    ghost count = { λ l. l.tally.count };

    ghost latest = { λ l. l.tally.latest };

    ghost later = { Prim.search rules };

    fn check(&self, peer: Station, time: u64) -> Result<Pass<Station>, u64> {
        match self.lane(peer) {
            Some(until) if until > time => Err(until),
            _ => Ok(Pass { peer, time }),
        }
    }

    fn send(&mut self, pass: Pass<Station>, id: u64, key: K) -> bool
        ensures sends { Sends station_word (λ l. l.tally.count) (λ l. l.tally.latest) self.old pass id key result self.new }
        ensures lanes { Passed result pass.peer.0 pass.time self.old self.new }
    {
        let Pass { peer, time } = pass;
        match lane_of(&self.lanes, peer.0) {
            Some(from) if from <= time => {
                let next = free_after(time, self.spacing);
                self.put(peer.0, Some(next));
                self.tally.add(Message { id, peer, key });
                true
            }
            _ => false,
        }
    }
}
