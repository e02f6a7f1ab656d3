// What every layer rests on: chips and their profiles, the names of registers, bits, and refusals.
#![tactic(auto)]

pub mod bits;
pub mod chip;
pub mod error;
pub mod numbers;
pub mod profile;
pub mod rates;
pub mod registers;
pub mod two_words;
