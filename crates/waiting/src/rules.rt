// Rules of retaining.
ghost use Rattle.std.specs.Prelude.{◌≡◌, Bool as Flag, not, ◌==◌};
ghost use Rattle.std.specs.Ordering.{is_eq};

use kinds::{Ordered, Seat};

// One fixed answer for each key and subscriber: whether the pair is kept. A trait and no closure: a rule has a name, and
// `keeps` says that its answers never change.
pub trait Rule<K, S> {
    ghost keeps: { Self → K → S → Flag };

    // A key and a subscriber, here and in the tracker, are what a call is given; a pair of them is a row's key.
    fn keep(&self, key: K, subscriber: S) -> bool
        ensures { result ≡ keeps self.now key subscriber };
}

// One subscriber is gone: all others are kept.
#[derive(Clone, Copy)]
pub struct SubscriberGone<S> {
    pub subscriber: S,
}

impl<K: Copy, S: Ordered> Rule<K, S> for SubscriberGone<S> {
    ghost keeps = { λ r _ s. not (is_eq (S.Ordered.order s r.subscriber)) };

    fn keep(&self, _key: K, subscriber: S) -> bool {
        subscriber != self.subscriber
    }
}

// One performance is over: the seats of all others are kept.
#[derive(Clone, Copy)]
pub struct PerformanceOver {
    pub performance: u32,
}

impl<S: Copy> Rule<Seat, S> for PerformanceOver {
    ghost keeps = { λ r k _. not (k.performance == r.performance) };

    fn keep(&self, key: Seat, _subscriber: S) -> bool {
        key.performance != self.performance
    }
}
