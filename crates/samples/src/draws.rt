// Examples of draws.
use draw::{DrawSource, Selection, Share, Supplied, Xorshift};
use std::test::Fail;

#[test]
fn words_are_supplied_then_zero(rt: HostRuntime) -> Result<(), Fail> {
    let mut source = Supplied::new(vec![in rt.alloc(); 5, 7]?);
    assert_eq!(rt; source.word(), 5);
    assert_eq!(rt; source.word(), 7);
    assert_eq!(rt; source.word(), 0);
    Ok(())
}

#[test]
fn seed_zero_counts_as_one(rt: HostRuntime) {
    let mut zero = Xorshift::new(0);
    let mut one = Xorshift::new(1);
    assert_eq!(rt; zero.word(), 1_082_269_761);
    assert_eq!(rt; one.word(), 1_082_269_761);
    assert_eq!(rt; zero.word(), 1_152_992_998_833_853_505);
}

const SHARES: [Share; 3] = [
    Share {
        weight: 1_001,
        aside: false,
    },
    Share {
        weight: 0,
        aside: false,
    },
    Share {
        weight: 3,
        aside: false,
    },
];

#[test]
fn a_selection_puts_every_row_back(rt: HostRuntime) -> Result<(), Fail> {
    let mut shares = SHARES;
    let mut source = Supplied::new(vec![in rt.alloc(); 5, 1_001]?);
    {
        let mut selection = Selection::new(&mut shares);
        assert_eq!(rt; selection.next(&mut source, 0), Some(2));
        selection.leave_out(0);
        assert_eq!(rt; selection.next(&mut source, 0), None);
    }
    assert!(rt; !shares[0].aside && !shares[2].aside);
    Ok(())
}
