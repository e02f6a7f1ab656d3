// What the parts of a block are set to.
#![tactic(auto)]

pub mod kinds;
pub mod readout;
pub mod text;
