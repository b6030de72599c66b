// The two means of a score.
ghost use Rattle.std.specs.Prelude.{◌*◌, ◌≤◌};
ghost use Rattle.score.specs.Bounds.{most_bytes, most_time, fraction};

// The mean of lengths in bytes times 2^32, and the mean of times in nanoseconds.
#[derive(Clone, Copy, Debug, PartialEq, Eq)]
pub struct Means {
    pub size: u64,
    pub time: u64,
    ghost short: { size ≤ most_bytes * fraction },
    ghost begun: { 1 ≤ time },
    ghost soon: { time ≤ most_time },
}
