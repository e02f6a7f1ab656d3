// The words of a block, and what a put leaves in them: one implementation for every block.
ghost use Rattle.std.specs.Prelude.{◌≡◌, slice_index, slice_set};
ghost use Rattle.block.specs.Places.{watchdog_place};
ghost use Rattle.block.specs.Puts.{rule_of, loaded, guarded, without, cleared};
ghost use Rattle.block.specs.Accesses.{new_words};

use crate::place::Place;
use base::chip::Chip;
use base::numbers::TimerNumber;
use base::registers::{GroupRegister, SystemRegister, TimerRegister, WatchdogRegister};

/// How many words a block has.
pub const PLACES: usize = 49;

/// The words of a block, by place.
pub type Words = [u32; PLACES];

/// What a put at a place does.
#[derive(Clone, Copy)]
pub enum PutRule {
    /// the word is stored
    Stores,
    /// nothing is stored
    Ignores,
    /// the timer's count is loaded
    Loads(TimerNumber),
    /// bits of INT_RAW are cleared
    ClearsGroup,
    /// bits of SYS_INT_RAW are cleared
    ClearsSystem,
    /// the word is stored while the protection is open
    Protected,
    /// the same for WDTCONFIG0, whose confirming bit is never kept
    Confirmed,
    /// the low 20 bits are stored
    TargetHigh,
}

use PutRule::{
    ClearsGroup, ClearsSystem, Confirmed, Ignores, Loads, Protected, Stores, TargetHigh,
};
use TimerNumber::{One, Zero};

#[rattlefmt::skip]
const RULES: [PutRule; PLACES] = [
    Stores, Ignores, Ignores, Ignores, Stores, Stores, Stores, Stores, Loads(Zero),
    Stores, Ignores, Ignores, Ignores, Stores, Stores, Stores, Stores, Loads(One),
    Confirmed, Protected, Protected, Protected, Protected, Protected, Ignores, Stores,
    Stores, Ignores, ClearsGroup, Ignores,
    Stores, Ignores, Ignores, Ignores,
    TargetHigh, Stores, TargetHigh, Stores, TargetHigh, Stores,
    Stores, Stores, Stores, Ignores, Ignores, Ignores,
    Stores, Ignores, ClearsSystem,
];

/// The word that opens the protection.
pub(crate) const KEY: u32 = 0x50D8_3AA1;

/// The confirming bit of WDTCONFIG0.
pub(crate) const CONFIRM: u32 = 0x40_0000;

pub(crate) fn rule_at(at: Place) -> PutRule
    ensures { result ≡ rule_of at.index }
{
    RULES[at.index() as usize]
}

/// The bits of `word` that `bits` has not.
pub(crate) fn clear(word: u32, bits: u32) -> u32
    ensures { result ≡ without word bits }
{
    word ^ (word & bits)
}

/// The place holds the word.
pub(crate) fn store(words: &mut Words, at: Place, word: u32)
    ensures { words.new ≡ slice_set words.old at.index word }
{
    words[at.index() as usize] = word;
}

/// LOADLO and the low 22 bits of LOADHI become the count.
pub(crate) fn load(words: &mut Words, number: TimerNumber)
    ensures { words.new ≡ loaded number words.old }
{
    // One place, from which the compiler knows the others: so a put at a place that it knows is as short as it can be.
    let timer = Place::timer(number, TimerRegister::Config).index() as usize;
    let low = words[timer + TimerRegister::LoadLo as usize];
    let high = words[timer + TimerRegister::LoadHi as usize];
    words[timer + TimerRegister::Lo as usize] = low;
    words[timer + TimerRegister::Hi as usize] = high % 0x40_0000;
}

/// The place holds the word if the protection holds its key.
pub(crate) fn store_protected(words: &mut Words, at: Place, word: u32)
    ensures { words.new ≡ guarded words.old at.index word }
{
    if word_at(words, Place::protection()) == KEY {
        store(words, at, word);
    }
}

/// The bits of `bits` are cleared at the place.
pub(crate) fn clear_at(words: &mut Words, raw: Place, bits: u32)
    ensures { words.new ≡ cleared words.old raw.index bits }
{
    let word = word_at(words, raw);
    store(words, raw, clear(word, bits));
}

/// The words of a new block.
pub(crate) fn new_words(chip: &Chip) -> Words
    ensures { result ≡ new_words chip.now }
{
    let mut words = [0; PLACES];
    let reset = chip.reset;
    store(
        &mut words,
        Place::timer(Zero, TimerRegister::Config),
        reset.config,
    );
    store(
        &mut words,
        Place::timer(One, TimerRegister::Config),
        reset.config,
    );
    store(
        &mut words,
        Place::watchdog(WatchdogRegister::Config0),
        reset.wdtconfig0,
    );
    store(
        &mut words,
        Place::watchdog(WatchdogRegister::Config1),
        reset.wdtconfig1,
    );
    store(&mut words, GroupRegister::Valid.into(), 7);
    store(&mut words, SystemRegister::Conf.into(), reset.conf);
    words
}

/// The word at a place of the words that `Block::words` gives.
pub fn word_at(words: &Words, at: Place) -> u32
    ensures { result ≡ slice_index words.now at.index }
{
    let index = at.index() as usize;
    words[index]
}

/// A watchdog's word there: to read it, its protection need not be open.
pub fn watchdog_word(words: &Words, register: WatchdogRegister) -> u32
    ensures { result ≡ slice_index words.now (watchdog_place register) }
{
    word_at(words, Place::watchdog(register))
}
