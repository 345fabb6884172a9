// What the lines of a book give, as memory holds it, and tests of a line that know no draft.
#![tactic(auto)]

pub mod memory;
pub mod movements;
pub mod parts;
