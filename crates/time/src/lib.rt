//! Instants, durations and rates of the system's time, counted in microseconds and hertz.
//!
//! A result that its type cannot hold, and a quotient by 0, is `None`. Only the difference of two
//! instants wraps, and only the `saturating_` calls stop at the ends.
#![tactic(auto)]

mod duration;
mod instant;
mod rate;

pub use duration::Duration;
pub use instant::Instant;
pub use rate::Rate;

#[cfg(test)]
mod tests;
