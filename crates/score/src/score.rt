// The rating by throughput: useful bytes a second of charged time.
ghost use Rattle.std.specs.Prelude.{◌≡◌, ℕ, ◌+◌, ◌*◌, ◌/◌, ◌≤◌, Some, None};
ghost use Rattle.score.specs.Bounds.{most_bytes, most_time, fraction, nanoseconds};
ghost use Rattle.score.specs.Means.{scaled, charged, halfway, weighed};
ghost use Rattle.score.specs.Scores.{means_after, weight_of};
ghost use Rattle.score.specs.Quotients.{bounded};
ghost use Rattle.std.proofs.Common.{rules};

use crate::means::Means;
use crate::rating::Rating;

// The longest record, in bytes.
const MOST_BYTES: u64 = 1_048_576;
// The longest time that a call can charge, in nanoseconds.
const MOST_TIME: u64 = 4_611_689_618_427_387_903;
// A mean length keeps 32 fractional bits.
const FRACTION: u64 = 4_294_967_296;

const NANOSECONDS: u64 = 1_000_000_000;

// A fresh score has no means yet.
#[derive(Clone, Copy, Debug, PartialEq, Eq)]
pub struct Score {
    pub means: Option<Means>,
}

// The mean length in bytes times 10^9, rounded down: the whole bytes and the fraction apart, so that each step fits 64
// bits.
fn nano_bytes(size: u64) -> u64
    requires { size ≤ most_bytes * fraction }
    ensures { result ≡ (size * nanoseconds) / fraction }
{
    size / FRACTION * NANOSECONDS + size % FRACTION * NANOSECONDS / FRACTION
}

// Bytes a second from the two means, rounded down.
pub fn quotient(means: Means) -> u64
    ensures { result ≡ (means.size * nanoseconds) / (means.time * fraction) }
{
    nano_bytes(means.size) / means.time
}

// A length as it is recorded.
fn scaled_size(size: u64) -> u64
    ensures { result ≡ scaled size }
{
    size.min(MOST_BYTES) * FRACTION
}

// A time as it is recorded.
fn charged_time(elapsed: u64) -> u64
    ensures { result ≡ charged elapsed }
{
    elapsed.clamp(1, MOST_TIME)
}

// The means that the first record sets.
fn first_means(elapsed: u64, size: u64) -> Means
    ensures size { result.size ≡ scaled size }
    ensures time { result.time ≡ charged elapsed }
{
    Means {
        size: scaled_size(size),
        time: charged_time(elapsed),
    }
}

// The means after a later record.
fn later_means(means: Means, elapsed: u64, size: u64) -> Means
    ensures size { result.size ≡ halfway means.size (scaled size) }
    ensures time { result.time ≡ halfway means.time (charged elapsed) }
{
    Means {
        size: (means.size + scaled_size(size)) / 2,
        time: (means.time + charged_time(elapsed)) / 2,
    }
}

// The means after a record.
fn means_with(means: Option<Means>, elapsed: u64, size: u64) -> Means
    ensures size { result.size ≡ (means_after means elapsed size).size }
    ensures time { result.time ≡ (means_after means elapsed size).time }
{
    match means {
        None => first_means(elapsed, size),
        Some(means) => later_means(means, elapsed, size),
    }
}

impl Rating for Score {
    ghost weighs = { λ s. weight_of s.means };

    ghost newcomer = { record { means = None } };

    ghost recorded = { λ s elapsed size. record { means = Some (means_after s.means elapsed size) } };

    ghost least = { Prim.search rules };

    ghost most = { λ x. bounded x.means };

    ghost starts = { Prim.search rules };

    fn fresh() -> Score {
        Score { means: None }
    }

    fn record(&mut self, elapsed: u64, size: u64) {
        self.means = Some(means_with(self.means, elapsed, size));
    }

    fn weight(&self) -> u64 {
        match self.means {
            None => 1,
            Some(means) => 1 + quotient(means),
        }
    }
}
