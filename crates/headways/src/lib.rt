// The rules of clash and headway that a book answers as: by its sections, by its table, and both joined.
#![tactic(auto)]

pub mod basis;
pub mod book_rule;
pub mod by_sections;
pub mod by_table;
pub mod rule;
mod steps;
pub mod theorems;
