// The timer group: its timers.
#![tactic(auto)]

pub mod group_timer;
