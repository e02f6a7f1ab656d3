// What a call answered.
use std::fmt;

/// An answer of a call that was not refused; it prints as the vectors write it.
#[derive(Clone, Copy)]
pub enum Answer {
    Done,
    Flag(bool),
    Micros(u64),
}

impl fmt::Display for Answer {
    fn fmt<W: fmt::Write>(&self, f: &mut fmt::Formatter<W>) -> fmt::Result {
        match self {
            Answer::Done => write!(f, "ok"),
            Answer::Flag(flag) => write!(f, "{}", u8::from(*flag)),
            Answer::Micros(micros) => write!(f, "{micros}"),
        }
    }
}
