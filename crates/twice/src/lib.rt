// Two sends over one link, each under a pass of its own.
#![tactic(auto)]

ghost use Rattle.std.specs.Prelude.{◌≡◌, ℕ};
ghost use Rattle.twice.specs.Twice.{Twice};

use kinds::Ordered;
use link::Link;

mod outcome;

pub use outcome::Outcome;

// Sends a key twice to a peer, under an id and the next one, and checks again before the second send, where it may be
// told to wait. Both passes stand here by name: the programs that must not compile use one of them wrongly.
pub fn send_twice<P: Ordered, K: Ordered, L: Link<P, K>>(
    link: &mut L,
    peer: P,
    time: u64,
    id: u64,
    key: K,
) -> Outcome
    ensures { Twice L.Link.word L.Link.count L.Link.latest link.old peer time id key result link.new }
{
    let first = match link.check(peer, time) {
        Ok(pass) => pass,
        Err(until) => return Outcome::Neither(Some(until)),
    };
    if !link.send(first, id, key) {
        return Outcome::Neither(None);
    }
    let second = match link.check(peer, time) {
        Ok(pass) => pass,
        Err(until) => return Outcome::First(Some(until)),
    };
    if !link.send(second, id.wrapping_add(1), key) {
        return Outcome::First(None);
    }
    Outcome::Both
}

#[cfg(test)]
mod tests {
    use super::{Outcome, send_twice};
    use kinds::{Seat, Station};
    use link::{Lanes, Link};
    use std::test::Fail;

    const SEAT: Seat = Seat {
        performance: 7,
        seat: 3,
    };

    // Two sends at the time 10 to one station over new lanes.
    fn tried(spacing: u64) -> Result<Outcome, Fail> {
        let mut lanes = Lanes::<Seat>::new(spacing).map_err(|_| Fail::new(
            "the spacing is too long",
        ))?;
        Ok(send_twice(&mut lanes, Station(4), 10, 1, SEAT))
    }

    #[test]
    fn is_told_to_wait(rt: HostRuntime) -> Result<(), Fail> {
        assert_eq!(rt;
            tried(5)?,
            Outcome::First(Some(15)),
            "the first is accepted, and the second waits"
        );
        Ok(())
    }

    #[test]
    fn is_taken_twice(rt: HostRuntime) -> Result<(), Fail> {
        assert_eq!(rt; tried(0)?, Outcome::Both, "both are accepted");
        Ok(())
    }
}
