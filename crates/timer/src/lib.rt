// What every kind of timer is to the drivers above it.
#![tactic(auto)]

pub mod interface;
pub mod part;
