// Links: the bytes of an outbox, and the lanes to stations.
#[cfg(test)]
mod tests {
    use kinds::{Bytes32, Digest, Ordered, PublicKey, Seat, Station};
    use link::{Lanes, Link, Outbox, Pass};
    use std::test::Fail;

    const SEAT: Seat = Seat {
        performance: 0x0102_0304,
        seat: 0x0506,
    };

    // Checks, and sends where there is a pass.
    fn sent<P: Ordered, K: Ordered, L: Link<P, K>>(
        link: &mut L,
        peer: P,
        time: u64,
        id: u64,
        key: K,
    ) -> bool {
        match link.check(peer, time) {
            Ok(pass) => link.send(pass, id, key),
            Err(_) => false,
        }
    }

    // The time until which a peer is told to wait.
    fn wait<P: Ordered, K: Ordered, L: Link<P, K>>(link: &L, peer: P, time: u64) -> Option<u64> {
        match link.check(peer, time) {
            Ok(Pass { peer: _, time: _ }) => None,
            Err(until) => Some(until),
        }
    }

    // Lanes with a spacing that is short enough.
    fn lanes(spacing: u64) -> Result<Lanes<Seat>, Fail> {
        match Lanes::new(spacing) {
            Ok(lanes) => Ok(lanes),
            Err(_) => Err(Fail::new("the spacing is refused")),
        }
    }

    #[test]
    fn outbox_of_station_and_seat(rt: HostRuntime) -> Result<(), Fail> {
        let mut outbox: Outbox<Station, Seat> = Outbox::new(rt.alloc(), 27)?;
        assert!(rt;
            sent(
                &mut outbox,
                Station(0x0a0b_0c0d),
                5,
                0x0102_0304_0506_0708,
                SEAT,
            )
        );
        let frame: [u8; 27] = [
            1, 0, 8, 1, 2, 3, 4, 5, 6, 7, 8, 2, 0, 4, 10, 11, 12, 13, 3, 0, 6, 1, 2, 3, 4, 5, 6,
        ];
        assert_eq!(rt; outbox.bytes(), frame.as_slice());
        assert_eq!(rt; outbox.len(), 27);
        Ok(())
    }

    #[test]
    fn outbox_of_public_key_and_digest(rt: HostRuntime) -> Result<(), Fail> {
        let mut outbox: Outbox<PublicKey, Digest> = Outbox::new(rt.alloc(), 100)?;
        let peer = PublicKey::new(Bytes32::new([7; 32]));
        let key = Digest::new(Bytes32::new([9; 32]));
        assert!(rt; sent(&mut outbox, peer, 5, 255, key));
        let frame: [u8; 81] = [
            1, 0, 8, 0, 0, 0, 0, 0, 0, 0, 255, 2, 0, 32, 7, 7, 7, 7, 7, 7, 7, 7, 7, 7, 7, 7, 7, 7,
            7, 7, 7, 7, 7, 7, 7, 7, 7, 7, 7, 7, 7, 7, 7, 7, 7, 7, 3, 0, 32, 9, 9, 9, 9, 9, 9, 9, 9,
            9, 9, 9, 9, 9, 9, 9, 9, 9, 9, 9, 9, 9, 9, 9, 9, 9, 9, 9, 9, 9, 9, 9, 9,
        ];
        assert_eq!(rt; outbox.bytes(), frame.as_slice());
        Ok(())
    }

    #[test]
    fn full_outbox_takes_none(rt: HostRuntime) -> Result<(), Fail> {
        let mut outbox: Outbox<Station, Seat> = Outbox::new(rt.alloc(), 80)?;
        assert!(rt; sent(&mut outbox, Station(1), 5, 1, SEAT));
        assert!(rt; sent(&mut outbox, Station(2), 5, 2, SEAT));
        assert!(rt;
            !sent(&mut outbox, Station(3), 5, 3, SEAT),
            "a third frame does not fit"
        );
        assert_eq!(rt; outbox.len(), 54);
        assert_eq!(rt; outbox.count(), 2);
        match outbox.latest() {
            Some(message) => {
                assert_eq!(rt; message.id, 2);
                Ok(())
            },
            None => Err(Fail::new("two messages were taken")),
        }
    }

    #[test]
    fn lane_waits_for_its_spacing(rt: HostRuntime) -> Result<(), Fail> {
        let mut lanes = lanes(5)?;
        assert!(rt; sent(&mut lanes, Station(255), 10, 1, SEAT));
        assert_eq!(rt; wait(&lanes, Station(255), 14), Some(15));
        assert_eq!(rt; wait(&lanes, Station(255), 15), None);
        assert_eq!(rt;
            wait(&lanes, Station(254), 0),
            None,
            "another lane is as it was"
        );
        assert!(rt; !sent(&mut lanes, Station(255), 14, 2, SEAT));
        assert!(rt; sent(&mut lanes, Station(255), 15, 2, SEAT));
        assert_eq!(rt; lanes.count(), 2);
        Ok(())
    }

    #[test]
    fn closed_lane_takes_none(rt: HostRuntime) -> Result<(), Fail> {
        let mut lanes = lanes(0)?;
        assert!(rt; lanes.close(Station(3)));
        assert_eq!(rt;
            wait(&lanes, Station(3), 10),
            None,
            "a closed lane tells nobody to wait"
        );
        assert!(rt; !sent(&mut lanes, Station(3), 10, 1, SEAT));
        assert!(rt;
            !sent(&mut lanes, Station(256), 10, 1, SEAT),
            "the lanes end at 255"
        );
        assert!(rt; sent(&mut lanes, Station(4), 10, 1, SEAT));
        assert!(rt;
            sent(&mut lanes, Station(4), 10, 2, SEAT),
            "without a spacing a lane is free at once"
        );
        Ok(())
    }

    #[test]
    fn owner_sets_a_lane(rt: HostRuntime) -> Result<(), Fail> {
        let mut lanes = lanes(0)?;
        assert!(rt; !lanes.close(Station(256)));
        assert!(rt; !lanes.set_free(Station(256), 0));
        assert!(rt; !lanes.set_free(Station(0), 0x8000_0000_0000_0000));
        assert!(rt; lanes.set_free(Station(0), 0x7fff_ffff_ffff_ffff));
        assert_eq!(rt; wait(&lanes, Station(0), 0), Some(0x7fff_ffff_ffff_ffff));
        Ok(())
    }

    #[test]
    fn spacing_is_bounded(rt: HostRuntime) -> Result<(), Fail> {
        assert_eq!(rt; lanes(3_600_000_000_000)?.spacing(), 3_600_000_000_000);
        match Lanes::<Seat>::new(3_600_000_000_001) {
            Ok(_) => Err(Fail::new("the spacing is too long")),
            Err(refusal) => {
                assert_eq!(rt; u8::from(refusal), 1);
                Ok(())
            },
        }
    }

    #[test]
    fn late_send_frees_at_the_last_time(rt: HostRuntime) -> Result<(), Fail> {
        let mut lanes = lanes(7)?;
        assert!(rt; sent(&mut lanes, Station(9), u64::MAX, 1, SEAT));
        assert_eq!(rt; lanes.lane(Station(9)), Some(0x7fff_ffff_ffff_ffff));
        Ok(())
    }
}
