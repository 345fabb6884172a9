ghost use Rattle.std.specs.Prelude.{◌≤◌};

use entries::memory::Closing;
use frames::kind::Kind;

pub mod calls;
mod checks;
pub mod in_memory;
mod indices;
mod parts;
mod takes;

// How many lines and movements a draft or a book has, and how many runs each of its orders has.
#[derive(Clone, Copy)]
struct Counts {
    lines: usize,
    movements: usize,
    runs_a: usize,
    runs_b: usize,
    ghost counted: { lines ≤ 65536 },
    ghost few: { movements ≤ 64 },
    ghost short_a: { runs_a ≤ 512 },
    ghost short_b: { runs_b ≤ 512 },
}

// A book that still takes lines: its counts, the kind of its last line, and its closing line if it has one. The rest of
// what it holds stands in the memory that is lent to each call. A draft is not copied, is made only by beginning one, and
// goes on as a draft, as a book, or by being given up.
pub struct Draft {
    counts: Counts,
    last_kind: Option<Kind>,
    closing: Option<Closing>,
}

// A closed book. It takes no more lines.
#[derive(Drop)]
pub struct Book {
    counts: Counts,
    closing: Closing,
    ghost some: { 1 ≤ counts.movements },
}
