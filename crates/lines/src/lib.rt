// The text layer: the lines of a book's text, and the bytes that a line's digits spell.
#![tactic(auto)]

pub mod fault;
pub mod hex;
pub mod reader;
