ghost use Rattle.std.specs.Prelude.{◌≡◌, ◌+◌, ◌≤◌, ◌++◌, length, take};
ghost use Rattle.entries.specs.Entries.{movement_of};
ghost use Rattle.entries.specs.Giving.{steps_of, runs_of};

use entries::memory::{Route, Run, Step};
use frames::fields::two;
use frames::frame::{MOST_STEPS, STEP_BYTES};

// The steps that a movement's bytes give, five bytes each.
pub(crate) fn read_route(priority: u8, bytes: &[u8]) -> Route
    requires { length bytes.now ≤ 120 }
    ensures steps { movement_of result ≡ record { priority = priority; steps = steps_of bytes.now } }
    ensures within { result.count ≤ 24 }
{
    let (given, _) = bytes.as_chunks::<STEP_BYTES>();
    let mut steps = [Step::default(); MOST_STEPS];
    for (i, &[section, s1, s0, r1, r0]) in given.iter().enumerate() {
        steps[i] = Step {
            section,
            set: two(s1, s0),
            release: two(r1, r0),
        };
    }
    Route {
        priority,
        count: given.len(),
        steps,
    }
}

// Writes runs into a row, behind those that it holds.
pub(crate) fn write_runs(row: &mut [Run], held: usize, runs: &[u8])
    requires { held + length runs.now ≤ length row.old }
    ensures { take (held + length runs.now) row.new ≡ take held row.old ++ runs_of runs.now }
{
    for (i, movement) in runs.iter().enumerate() {
        row[held + i] = Run {
            movement: *movement,
        };
    }
}
