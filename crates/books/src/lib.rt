// The book layer: a draft takes lines one by one, and closing it gives a book.
#![tactic(auto)]

pub mod reading;
pub mod state;

// The fault of a reading and the memory of a book, which stand in crates of their own.
pub use entries::memory;
pub use faults as fault;
