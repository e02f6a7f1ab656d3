// The accesses of one call.
ghost use Rattle.std.specs.Prelude.{◌≡◌};
ghost use Rattle.vectors.specs.Logging.{no_accesses, noted};

use arrayvec::ArrayVec;
use std::fmt;

/// One access of a block: a get at a place, or a put of a word there.
#[derive(Clone, Copy)]
pub enum Access {
    Get(u8),
    Put(u8, u32),
}

// What a log's room is filled with before there are accesses.
impl Default for Access {
    fn default() -> Access {
        Access::Get(0)
    }
}

impl fmt::Display for Access {
    fn fmt<W: fmt::Write>(&self, f: &mut fmt::Formatter<W>) -> fmt::Result {
        match self {
            Access::Get(at) => write!(f, "g{at}"),
            Access::Put(at, word) => write!(f, "p{at}:{word:08x}"),
        }
    }
}

// More than twice what the longest call makes.
const ROOM: usize = 64;

/// Accesses in their order. Those past the room are counted and not kept.
#[derive(Drop)]
pub struct AccessLog {
    kept: ArrayVec<Access, ROOM>,
    left_out: u64,
}

impl AccessLog {
    /// No access is noted yet.
    pub fn new() -> AccessLog
        ensures { result ≡ no_accesses }
    {
        AccessLog {
            kept: ArrayVec::new(),
            left_out: 0,
        }
    }

    /// Notes one more access.
    pub fn note(&mut self, access: Access)
        ensures { self.new ≡ noted self.old access }
    {
        if self.kept.try_push(access).is_err() {
            self.left_out = self.left_out.saturating_add(1);
        }
    }
}

/// Each access behind a space; dots at the end say that some are left out.
impl fmt::Display for AccessLog {
    fn fmt<W: fmt::Write>(&self, f: &mut fmt::Formatter<W>) -> fmt::Result {
        for access in &self.kept {
            write!(f, " {access}")?;
        }
        if self.left_out > 0 {
            write!(f, " ..")?;
        }
        Ok(())
    }
}
