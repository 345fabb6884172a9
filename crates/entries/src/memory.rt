ghost use Rattle.std.specs.Prelude.{◌≡◌, length};

use frames::frame::MOST_STEPS;

pub mod calls;

// A book has at most this many movements, and each of its orders at most this many runs.
pub const MOST_MOVEMENTS: usize = 64;

pub const MOST_RUNS: usize = 512;

// One section of a movement's way: from a run's start, the seconds until it is set and until it is released.
#[derive(Clone, Copy, Default)]
pub struct Step {
    pub section: u8,
    pub set: u16,
    pub release: u16,
}

// A movement as its line gave it: its priority, and its steps, which are the first `count` of the array. A route is
// plain data that is copied, as an `ArrayVec` of the library cannot be.
#[derive(Clone, Copy)]
pub struct Route {
    pub priority: u8,
    pub count: usize,
    pub steps: [Step; MOST_STEPS],
}

// What a line of the table says of an ordered pair: the gap in seconds, and its weight.
#[derive(Clone, Copy)]
pub struct Listed {
    pub gap: u16,
    pub weight: u8,
}

// One use of a movement.
#[derive(Clone, Copy, Default)]
pub struct Run {
    pub movement: u8,
}

// The closing movement, and the window in seconds of which the occupation is a percentage.
#[derive(Clone, Copy)]
pub struct Closing {
    pub movement: u8,
    pub window: u32,
}

// What a draft or a book holds beside its numbers; it is lent to each call. Memory is plain data of a fixed size: whoever
// lends other memory has another draft, or another book. The openings stand apart from the routes, since beginning a draft
// empties them and leaves the routes.
#[derive(Drop)]
pub struct Memory {
    pub routes: [Route; MOST_MOVEMENTS],
    pub table: [[Option<Listed>; MOST_MOVEMENTS]; MOST_MOVEMENTS],
    pub openings: [Option<u32>; MOST_MOVEMENTS],
    pub order_a: [Run; MOST_RUNS],
    pub order_b: [Run; MOST_RUNS],
    ghost long: { length routes ≡ 64 },
    ghost long_a: { length order_a ≡ 512 },
    ghost long_b: { length order_b ≡ 512 },
}
