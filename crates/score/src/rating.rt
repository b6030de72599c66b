// What every rating has in common.
ghost use Rattle.std.specs.Prelude.{◌≡◌, ℕ, ◌≤◌};
ghost use Rattle.score.specs.Bounds.{most_weight};

// A rating means its weight, from 1 to the greatest weight. A fresh one weighs 1; recording an elapsed time in
// nanoseconds and a length in bytes may give another: two numbers, as the port's own `record` takes them.
pub trait Rating: Copy {
    ghost weighs: { Self → ℕ };

    ghost newcomer: { Self };

    ghost recorded: { Self → ℕ → ℕ → Self };

    fn fresh() -> Self
        ensures { result ≡ newcomer };

    fn record(&mut self, elapsed: u64, size: u64)
        ensures { self.new ≡ recorded self.old elapsed size };

    fn weight(&self) -> u64
        ensures { result ≡ weighs self.now };

    ghost least: { (x : Self) → 1 ≤ weighs x };

    ghost most: { (x : Self) → weighs x ≤ most_weight };

    ghost starts: { weighs newcomer ≡ 1 };
}
