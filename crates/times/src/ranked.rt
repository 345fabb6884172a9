ghost use Rattle.std.specs.Prelude.{◌≡◌, Some};
ghost use Rattle.times.specs.Ranked.{weighed, ranked, ranked_meaning, ranked_sum, ranked_not_after, ranked_text};
ghost use Rattle.times.specs.Laws.{ranked_laws};

use crate::plain::{LAST_SECOND, Plain};
use crate::time::Time;
use std::fmt;

// The greatest weight: no making and no sum goes past it.
pub const GREATEST_WEIGHT: u16 = 9_999;

// Ranked time: plain time, then a weight, which is 0 at the last second.
#[derive(Clone, Copy)]
pub struct Ranked {
    pub(crate) time: Plain,
    pub(crate) weight: u16,
}

impl Ranked {
    // A plain time with a weight, which is cut.
    fn weighed(time: Plain, weight: u16) -> Ranked
        ensures { result ≡ weighed time weight }
    {
        let given = Ranked { time, weight };
        Ranked {
            time,
            weight: given.weight(),
        }
    }

    // The seconds of the time that the value means.
    pub fn seconds(self) -> u32
        ensures { result ≡ (ranked_meaning self).time.seconds }
    {
        self.time.seconds()
    }

    // The weight of the time that the value means.
    pub fn weight(self) -> u16
        ensures { result ≡ (ranked_meaning self).weight }
    {
        if self.seconds() < LAST_SECOND {
            self.weight.min(GREATEST_WEIGHT)
        } else {
            0
        }
    }
}

impl Time for Ranked {
    ghost meaning = { ranked_meaning };

    ghost origin = { ranked 0 0 };

    ghost made = { ranked };

    ghost sum = { ranked_sum };

    ghost not_after = { ranked_not_after };

    ghost laws = { ranked_laws };

    fn zero() -> Ranked {
        Ranked {
            time: Plain::zero(),
            weight: 0,
        }
    }

    fn make(seconds: u32, weight: u16) -> Ranked {
        Ranked::weighed(Plain::make(seconds, weight), weight)
    }

    fn plus(self, other: Ranked) -> Ranked {
        Ranked::weighed(self.time.plus(other.time), self.weight() + other.weight())
    }

    fn not_after(self, other: Ranked) -> bool {
        (self.seconds(), self.weight()) <= (other.seconds(), other.weight())
    }
}

impl fmt::Display for Ranked {
    ghost output = { λ t. Some (ranked_text t) };

    fn fmt<W: fmt::Write>(&self, f: &mut fmt::Formatter<W>) -> fmt::Result {
        let seconds = self.seconds();
        let weight = self.weight();
        write!(f, "{seconds} {weight}")
    }
}
