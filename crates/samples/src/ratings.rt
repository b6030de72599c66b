// Examples of ratings.
use score::{Flat, Rating, Score};

#[test]
fn a_score_follows_its_means(rt: HostRuntime) {
    let mut score = Score::fresh();
    assert_eq!(rt; score.weight(), 1);
    score.record(1_000_000_000, 1_000);
    assert_eq!(rt; score.weight(), 1_001);
    score.record(3_000_000_000, 0);
    assert_eq!(rt; score.weight(), 251);
}

#[test]
fn the_greatest_weight(rt: HostRuntime) {
    let mut score = Score::fresh();
    score.record(0, 1_048_576);
    assert_eq!(rt; score.weight(), 1_048_576_000_000_001);
    let mut slow = Score::fresh();
    slow.record(4_611_689_618_427_387_903, 1_048_576);
    assert_eq!(rt; slow.weight(), 1);
}

#[test]
fn flat_is_always_one(rt: HostRuntime) {
    let mut flat = Flat::fresh();
    flat.record(1, 1_000);
    assert_eq!(rt; flat.weight(), 1);
}
