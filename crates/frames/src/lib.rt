// The frame layer: what the bytes of a line say.
#![tactic(auto)]

pub mod fault;
pub mod fields;
pub mod frame;
pub mod kind;
