// Rules of clash and headway, and the union of two rules.
#![tactic(auto)]

pub mod clash;
pub mod headway;
pub mod union;
