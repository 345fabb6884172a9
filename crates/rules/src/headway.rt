ghost use Rattle.std.specs.Prelude.{◌≡◌, cond, ℕ};

use crate::clash::Clash;
use times::time::Time;

// A rule of headway is a rule of clash that also says, in one kind of time, how long after the start of a run a later run
// that clashes with it may start.
pub trait Headway: Clash {
    type Kind: Time;

    // The gap of an ordered pair that clashes.
    ghost headway: { Self → ℕ → ℕ → Self.Kind };

    // The least time from the start of a run of `a` to the start of a later run of `b`; zero where they do not clash.
    fn gap(&self, a: u8, b: u8) -> Self::Kind
        ensures { result ≡ cond (Self.Clash.clash self.now a b) (headway self.now a b) Self.Kind.Time.origin };
}
