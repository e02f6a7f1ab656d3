// The system timer: its alarms.
#![tactic(auto)]

pub mod alarm;
