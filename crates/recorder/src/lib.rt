// A block that also writes each put as a record into a list that its caller lends.
#![tactic(auto)]

ghost use Rattle.std.specs.Prelude.{◌≡◌};
ghost use Rattle.block.specs.Accesses.{Put, new_block};
ghost use Rattle.block.specs.Parts.{handles_of};
ghost use Rattle.recorder.specs.Records.{recorded};
ghost use Rattle.recorder.specs.Recorders.{recorder_means, recording_of, recorder_model};

use base::chip::Chip;
use base::profile::Profile;
use block::access::Block;
use block::parts::Handles;
use block::place::Place;
use block::register_file::RegisterFile;
use block::replay::Record;
use block::words::Words;

#[cfg(test)]
mod tests;

/// The list is lent, since there is no heap here.
#[derive(Drop)]
pub struct Recorder<'a> {
    file: RegisterFile,
    list: &'a mut [u8],
    puts: u64,
}

impl<'a> Recorder<'a> {
    /// A new block of the profile over the caller's list, with the handles of its parts.
    pub fn new(profile: Profile, list: &'a mut [u8]) -> (Recorder<'a>, Handles)
        ensures block { recorder_means result.0 ≡ new_block profile.chip }
        ensures list { result.0.list.now ≡ list.old }
        ensures lent { result.0.list.ghost_name ≡ list.entry.ghost_name }
        ensures puts { result.0.puts ≡ 0 }
        ensures handles { result.1 ≡ handles_of profile.chip }
    {
        let (file, handles) = RegisterFile::new(profile);
        (
            Recorder {
                file,
                list,
                puts: 0,
            },
            handles,
        )
    }
}

impl Recorder<'_> {
    /// How many puts there were, whether their records fitted or not.
    pub fn puts(&self) -> u64
        ensures { result ≡ self.now.puts }
    {
        self.puts
    }

    // Notes a put behind those before it, if its record fits, and counts it.
    fn note(&mut self, put: Record)
        ensures file { self.new.file ≡ self.old.file }
        ensures recording { recording_of self.new ≡ recorded (recording_of self.old) (Put put.at.index put.word) }
    {
        let Recorder { list, puts, .. } = self;
        if *puts < list.len() as u64 / 8 {
            let start = *puts as usize * 8;
            list[start..start + 8].copy_from_slice(&<[u8; 8]>::from(put));
        }
        *puts = puts.saturating_add(1);
    }
}

// Passed on by hand: in a field of a generic block the list would be lost for its lender.
impl<'a> Block for Recorder<'a> {
    ghost model = { recorder_model };

    fn chip(&self) -> Chip {
        self.file.chip()
    }

    fn get(&mut self, at: Place) -> u32 {
        self.file.get(at)
    }

    fn put(&mut self, at: Place, word: u32) {
        self.file.put(at, word);
        self.note(Record { at, word });
    }

    fn words(&self) -> Words {
        self.file.words()
    }
}
