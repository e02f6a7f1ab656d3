// Jobs: calls of drivers on the parts of a block.
#![tactic(auto)]

pub mod bench;
pub mod make;
