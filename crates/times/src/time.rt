ghost use Rattle.std.specs.Prelude.{◌≡◌, ℕ, Bool};
ghost use Rattle.traces.specs.Kinds.{TimeLaws, later_of};

// A kind of time. Each value means a time: `meaning` gives the value that the time is written by. The laws are those of
// a total order with a first time, and of a sum that keeps it. No operation refuses.
pub trait Time: Copy {
    // The value that a value's time is written by.
    ghost meaning: { Self → Self };

    // Zero.
    ghost origin: { Self };

    // The time of so many seconds and a weight.
    ghost made: { ℕ → ℕ → Self };

    // The sum of two times.
    ghost sum: { Self → Self → Self };

    // The first is not after the second.
    ghost not_after: { Self → Self → Bool };

    ghost laws: { TimeLaws meaning origin made sum not_after };

    // The first time.
    fn zero() -> Self
        ensures { result ≡ origin };

    // The time of so many seconds, with a weight.
    fn make(seconds: u32, weight: u16) -> Self
        ensures { result ≡ made seconds weight };

    // The sum of two times.
    fn plus(self, other: Self) -> Self
        ensures { result ≡ sum self other };

    // Whether a time is not after another.
    fn not_after(self, other: Self) -> bool
        ensures { result ≡ not_after self other };

    // The later of two times.
    #[tactic(auto, unfolding(traces::specs::Kinds::later_of))]
    fn later(self, other: Self) -> Self
        ensures { result ≡ later_of not_after self other }
    {
        if self.not_after(other) { other } else { self }
    }
}
