// The replay of the vectors on the port.
ghost use Rattle.std.specs.Prelude.{IsOk, ◌↔◌, string_bytes};
ghost use Rattle.vectors.specs.Replies.{Meets};

use crate::bench::LoggedBench;
use crate::call::Request;
use crate::step::{Reply, Step, read_step};
use crate::tally::Tally;
use base::error::Error;
use base::profile::Profile;
use std::alloc::{AllocError, Global};
use std::fmt;

/// Why the replay ended early.
#[derive(Drop)]
pub enum Fault {
    /// The line has none of the forms.
    Unreadable,
    /// The chip is no profile.
    BadChip(Error),
    /// The chip has no such part.
    NoPart,
    /// Ours is not the reply that the line wants.
    Differs(String),
    /// Ours is the crate's reply, where a departure is promised.
    Agrees(String),
    /// No memory is left.
    Memory,
}

impl From<AllocError> for Fault {
    fn from(_error: AllocError) -> Fault {
        Fault::Memory
    }
}

/// The line, from 1, at which the replay ended, and why.
#[derive(Drop)]
pub struct Failure {
    line: usize,
    fault: Fault,
}

impl fmt::Display for Failure {
    fn fmt<W: fmt::Write>(&self, f: &mut fmt::Formatter<W>) -> fmt::Result {
        let line = self.line;
        match &self.fault {
            Fault::Unreadable => write!(f, "no step at line {line}"),
            Fault::BadChip(error) => write!(f, "no profile at line {line}: {error}"),
            Fault::NoPart => write!(f, "no such part at line {line}"),
            Fault::Differs(ours) => write!(f, "differs at line {line}: ours {ours}"),
            Fault::Agrees(ours) => write!(f, "does not depart at line {line}: ours {ours}"),
            Fault::Memory => write!(f, "no memory at line {line}"),
        }
    }
}

// The block that the lines speak of, and what was counted so far.
#[derive(Drop)]
struct Replay {
    heap: Global,
    bench: LoggedBench,
    tally: Tally,
}

impl Replay {
    fn take_line(&mut self, line: &str) -> Result<(), Fault> {
        match read_step(line).ok_or(Fault::Unreadable)? {
            Step::NewBlock(chip) => {
                let profile = Profile::new(chip).map_err(Fault::BadChip)?;
                self.bench = LoggedBench::new(profile);
                self.tally.count_block();
            }
            Step::SetWord(register, word) => self.bench.set(register.into(), word),
            Step::MakeCall(request, wanted) => {
                let ours = self.make_call(request)?;
                self.compare(ours, wanted)?;
            }
        }
        Ok(())
    }

    // What a call replies: its answer, or why it was refused, and its accesses.
    fn make_call(&mut self, request: Request) -> Result<String, Fault> {
        let answer = self.bench.ask(request).ok_or(Fault::NoPart)?;
        let log = self.bench.log();
        Ok(match answer {
            Ok(answer) => format!(in self.heap; "{answer} |{log}")?,
            Err(error) => format!(in self.heap; "err {error:?} |{log}")?,
        })
    }

    // Holds our reply to the one that is wanted, and counts it.
    fn compare(&mut self, ours: String, wanted: Reply<'_>) -> Result<(), Fault>
        ensures { IsOk result ↔ Meets wanted.entry (string_bytes ours) }
    {
        match wanted {
            Reply::Alike(theirs) => {
                if ours.as_str() != theirs {
                    return Err(Fault::Differs(ours));
                }
                self.tally.count_alike();
            }
            Reply::Departs(departure, theirs, promised) => {
                if ours.as_str() == theirs {
                    return Err(Fault::Agrees(ours));
                }
                if ours.as_str() != promised {
                    return Err(Fault::Differs(ours));
                }
                self.tally.count_departure(departure);
            }
        }
        Ok(())
    }
}

/// Replays the lines one after another, and counts. Before the first block of the lines stands the bench unit's.
pub fn replay_lines(heap: Global, text: &str) -> Result<Tally, Failure> {
    let mut replay = Replay {
        heap,
        bench: LoggedBench::new(Profile::bench()),
        tally: Tally::default(),
    };
    for (line, step) in (1..).zip(text.lines()) {
        replay
            .take_line(step)
            .map_err(|fault| Failure { line, fault })?;
    }
    Ok(replay.tally)
}
