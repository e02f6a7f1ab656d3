// The register block of the timers, the alarms and the watchdog.
#![tactic(auto)]

pub mod access;
pub mod parts;
pub mod place;
pub mod protection;
pub mod register_file;
pub mod replay;
pub mod words;
