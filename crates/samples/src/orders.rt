// Examples of kinds: how they are ordered, and their forms.
use kinds::{Bytes32, Digest, Pair, PublicKey, Seat, Station, Storable};
use std::test::Fail;

fn seat(performance: u32, seat: u16) -> Seat {
    Seat { performance, seat }
}

#[test]
fn numbers_go_field_by_field(rt: HostRuntime) {
    assert!(rt; Station(7).cmp(&Station(8)).is_lt());
    assert!(rt; seat(7, 9).cmp(&seat(8, 1)).is_lt());
    assert!(rt; seat(7, 9).cmp(&seat(7, 8)).is_gt());
    assert!(rt; seat(7, 9).cmp(&seat(7, 9)).is_eq());
}

#[test]
fn pairs_go_by_the_first(rt: HostRuntime) {
    let one = Pair {
        first: seat(1, 1),
        second: Station(9),
    };
    let two = Pair {
        first: seat(1, 2),
        second: Station(3),
    };
    assert!(rt; one.cmp(&two).is_lt());
    assert!(rt; two.cmp(&one).is_gt());
}

#[test]
fn bytes_go_byte_by_byte(rt: HostRuntime) {
    let low = Digest::new(Bytes32::new([1; 32]));
    let mut bytes = [1; 32];
    bytes[31] = 2;
    let high = Digest::new(Bytes32::new(bytes));
    assert!(rt; low.cmp(&high).is_lt());
    assert!(rt; high.cmp(&low).is_gt());
}

#[test]
fn forms_are_big_endian(rt: HostRuntime) -> Result<(), Fail> {
    let mut out = Vec::new(rt.alloc());
    Station(0x0102_0304).put(&mut out)?;
    seat(0x0506_0708, 0x090a).put(&mut out)?;
    assert_eq!(rt; out.as_slice(), &[1u8, 2, 3, 4, 5, 6, 7, 8, 9, 10][..]);
    assert_eq!(rt; Station::size(), 4);
    assert_eq!(rt; Seat::size(), 6);
    Ok(())
}

#[test]
fn a_key_is_its_own_form(rt: HostRuntime) -> Result<(), Fail> {
    let mut out = Vec::new(rt.alloc());
    PublicKey::new(Bytes32::new([7; 32])).put(&mut out)?;
    assert_eq!(rt; out.as_slice(), &[7u8; 32][..]);
    Ok(())
}
