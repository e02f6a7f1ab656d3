// A block that notes each access of it.
ghost use Rattle.std.specs.Prelude.{◌≡◌};
ghost use Rattle.block.specs.Accesses.{new_block, with_word};
ghost use Rattle.block.specs.Parts.{handles_of};
ghost use Rattle.vectors.specs.Logging.{no_accesses, logged_means, logged_model};

use crate::access_log::{Access, AccessLog};
use base::chip::Chip;
use base::profile::Profile;
use block::access::Block;
use block::parts::Handles;
use block::place::Place;
use block::register_file::RegisterFile;
use block::words::Words;

/// A register file and the accesses of it.
#[derive(Drop)]
pub struct LoggedBlock {
    file: RegisterFile,
    log: AccessLog,
}

impl LoggedBlock {
    /// A new block of the profile, with the handles of its parts.
    pub fn new(profile: Profile) -> (LoggedBlock, Handles)
        ensures block { logged_means result.0 ≡ new_block profile.chip }
        ensures log { result.0.log ≡ no_accesses }
        ensures handles { result.1 ≡ handles_of profile.chip }
    {
        let (file, handles) = RegisterFile::new(profile);
        let log = AccessLog::new();
        (LoggedBlock { file, log }, handles)
    }

    /// What the hardware does by itself; no access.
    pub fn set(&mut self, at: Place, word: u32)
        ensures block { logged_means self.new ≡ with_word at.index word (logged_means self.old) }
        ensures log { self.new.log ≡ self.old.log }
    {
        self.file.set(at, word);
    }

    /// Forgets the accesses noted so far.
    pub fn forget(&mut self)
        ensures block { logged_means self.new ≡ logged_means self.old }
        ensures log { self.new.log ≡ no_accesses }
    {
        self.log = AccessLog::new();
    }

    /// The accesses since the last forgetting.
    pub fn log(&self) -> &AccessLog
        ensures { result.now ≡ self.now.log }
    {
        &self.log
    }
}

// Passed on by hand, a line each: a generic block and a trait for what it keeps would be longer.
impl Block for LoggedBlock {
    ghost model = { logged_model };

    fn chip(&self) -> Chip {
        self.file.chip()
    }

    fn get(&mut self, at: Place) -> u32 {
        self.log.note(Access::Get(at.index()));
        self.file.get(at)
    }

    fn put(&mut self, at: Place, word: u32) {
        self.log.note(Access::Put(at.index(), word));
        self.file.put(at, word);
    }

    fn words(&self) -> Words {
        self.file.words()
    }
}
