ghost use Rattle.std.specs.Prelude.{◌≡◌, Some};
ghost use Rattle.times.specs.Plain.{plain, plain_meaning, plain_sum, plain_not_after, plain_text};
ghost use Rattle.times.specs.Laws.{plain_laws};

use crate::time::Time;
use std::fmt;

// The last second of plain and of ranked time: no making and no sum goes past it.
pub const LAST_SECOND: u32 = 99_999_999;

// Plain time: seconds alone.
#[derive(Clone, Copy)]
pub struct Plain {
    pub(crate) seconds: u32,
}

impl Plain {
    // The seconds of the time that the value means.
    pub fn seconds(self) -> u32
        ensures { result ≡ (plain_meaning self).seconds }
    {
        self.seconds.min(LAST_SECOND)
    }
}

impl Time for Plain {
    ghost meaning = { plain_meaning };

    ghost origin = { plain 0 };

    ghost made = { λ s _. plain s };

    ghost sum = { plain_sum };

    ghost not_after = { plain_not_after };

    ghost laws = { plain_laws };

    fn zero() -> Plain {
        Plain { seconds: 0 }
    }

    fn make(seconds: u32, _weight: u16) -> Plain {
        Plain {
            seconds: seconds.min(LAST_SECOND),
        }
    }

    fn plus(self, other: Plain) -> Plain {
        Plain::make(self.seconds() + other.seconds(), 0)
    }

    fn not_after(self, other: Plain) -> bool {
        self.seconds() <= other.seconds()
    }
}

impl fmt::Display for Plain {
    ghost output = { λ t. Some (plain_text t) };

    fn fmt<W: fmt::Write>(&self, f: &mut fmt::Formatter<W>) -> fmt::Result {
        let seconds = self.seconds();
        write!(f, "{seconds}")
    }
}
