// Kinds of time, and the row that holds times.
#![tactic(auto)]

pub mod plain;
pub mod ranked;
pub mod row;
#[cfg(test)]
mod tests;
pub mod time;
