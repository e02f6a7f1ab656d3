// The words of a block and nothing else: what every block of the bench keeps inside.
ghost use Rattle.std.specs.Prelude.{◌≡◌, length};
ghost use Rattle.block.specs.Accesses.{new_block, with_word};
ghost use Rattle.block.specs.Files.{file_means, file_model};
ghost use Rattle.block.specs.Parts.{handles_of};
ghost use Rattle.block.specs.Places.{place_count};
ghost use Rattle.block.specs.Puts.{by_rule};

use crate::access::Block;
use crate::parts::Handles;
use crate::place::Place;
use crate::words::{
    CONFIRM, PutRule, Words, clear, clear_at, load, new_words, rule_at, store, store_protected,
    word_at,
};
use base::chip::Chip;
use base::profile::Profile;
use base::registers::{GroupRegister, SystemRegister};

#[derive(Drop)]
pub struct RegisterFile {
    chip: Chip,
    words: Words,
}

impl RegisterFile {
    /// The words of a new block of the profile, with the handles of its parts. This alone gives handles.
    pub fn new(profile: Profile) -> (RegisterFile, Handles)
        ensures block { file_means result.0 ≡ new_block profile.chip }
        ensures handles { result.1 ≡ handles_of profile.chip }
    {
        let chip = profile.chip();
        let words = new_words(&chip);
        (RegisterFile { chip, words }, Handles::new(&chip))
    }

    /// What the hardware does by itself: the place holds the word, whatever its put rule is.
    pub fn set(&mut self, at: Place, word: u32)
        ensures { file_means self.new ≡ with_word at.index word (file_means self.old) }
    {
        store(&mut self.words, at, word);
    }

    // A put by a rule: one match, since a table of closures would have to say anew what each is proved to do. For the
    // proof, the words stay as many as there are places.
    fn put_by(&mut self, rule: PutRule, at: Place, word: u32)
        ensures chip { self.new.chip ≡ self.old.chip }
        ensures words { self.new.words ≡ by_rule self.old.chip rule self.old.words at.index word }
        ensures sized { length self.new.words ≡ place_count }
    {
        let words = &mut self.words;
        match rule {
            PutRule::Stores => store(words, at, word),
            PutRule::Ignores => {}
            PutRule::Loads(number) => load(words, number),
            PutRule::ClearsGroup => clear_at(words, GroupRegister::IntRaw.into(), word),
            PutRule::ClearsSystem => clear_at(words, SystemRegister::IntRaw.into(), word),
            PutRule::Confirmed if self.chip.confirm => {
                store_protected(words, at, clear(word, CONFIRM));
            }
            PutRule::Protected | PutRule::Confirmed => store_protected(words, at, word),
            PutRule::TargetHigh => store(words, at, word % 0x10_0000),
        }
    }
}

impl Block for RegisterFile {
    ghost model = { file_model };

    fn chip(&self) -> Chip {
        self.chip
    }

    fn get(&mut self, at: Place) -> u32 {
        word_at(&self.words, at)
    }

    fn put(&mut self, at: Place, word: u32) {
        self.put_by(rule_at(at), at, word);
    }

    fn words(&self) -> Words {
        self.words
    }
}
