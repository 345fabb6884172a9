ghost use Rattle.std.specs.Prelude.{◌≡◌};
ghost use Rattle.entries.specs.Entries.{Blank, movement_of};

use super::{MOST_MOVEMENTS, MOST_RUNS, Memory, Route, Run, Step};
use frames::frame::MOST_STEPS;

impl Route {
    // The steps in the order of the way.
    pub fn steps(&self) -> &[Step]
        ensures { result.now ≡ (movement_of self.now).steps }
    {
        let row: &[Step] = &self.steps;
        &row[0..self.count.min(MOST_STEPS)]
    }
}

impl Memory {
    // Memory with nothing in it. A draft begun on it means the same as one begun on any other memory.
    pub fn new() -> Memory
        ensures { Blank result }
    {
        let route = Route {
            priority: 0,
            count: 0,
            steps: [Step::default(); MOST_STEPS],
        };
        Memory {
            routes: [route; MOST_MOVEMENTS],
            table: [[None; MOST_MOVEMENTS]; MOST_MOVEMENTS],
            openings: [None; MOST_MOVEMENTS],
            order_a: [Run::default(); MOST_RUNS],
            order_b: [Run::default(); MOST_RUNS],
        }
    }
}
