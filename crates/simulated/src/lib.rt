// A block that plays the timers on a bench. Time does not pass in it yet.
#![tactic(auto)]

ghost use Rattle.std.specs.Prelude.{◌≡◌, replicate};
ghost use Rattle.block.specs.Accesses.{new_block, with_word};
ghost use Rattle.block.specs.Parts.{handles_of};
ghost use Rattle.block.specs.Places.{group_place};
ghost use Rattle.base.specs.declared.registers.GroupRegister.TheVariants.{Valid};
ghost use Rattle.simulated.specs.Comparators.{zero_phase, comparators_put};
ghost use Rattle.simulated.specs.Simulations.{simulated_means, simulated_model};

use base::chip::Chip;
use base::numbers::AlarmNumber;
use base::profile::Profile;
use base::registers::{AlarmRegister, GroupRegister};
use block::access::Block;
use block::parts::Handles;
use block::place::Place;
use block::register_file::RegisterFile;
use block::words::Words;

/// What an alarm keeps beside its registers: how far it is into its period.
#[derive(Clone, Copy)]
pub struct Comparator {
    phase: u32,
}

#[derive(Drop)]
pub struct SimulatedBlock {
    file: RegisterFile,
    comparators: [Comparator; 3],
}

// A put at COMP_LOAD starts its alarm's period anew; the places of the three lie one behind the other.
fn restart(comparators: &mut [Comparator; 3], at: Place)
    ensures { comparators.new ≡ comparators_put comparators.old at.index }
{
    let first = Place::alarm(AlarmNumber::Zero, AlarmRegister::CompLoad);
    if let Some(alarm @ ..3) = at.index().checked_sub(first.index()) {
        comparators[alarm as usize] = Comparator { phase: 0 };
    }
}

impl SimulatedBlock {
    /// A new block of the profile, with the handles of its parts.
    pub fn new(profile: Profile) -> (SimulatedBlock, Handles)
        ensures block { simulated_means result.0 ≡ new_block profile.chip }
        ensures comparators { result.0.comparators ≡ replicate 3 zero_phase }
        ensures handles { result.1 ≡ handles_of profile.chip }
    {
        let (file, handles) = RegisterFile::new(profile);
        let comparators = [Comparator { phase: 0 }; 3];
        (SimulatedBlock { file, comparators }, handles)
    }

    /// Says which counts can be read: bits 0 and 1 for the timers' counts, bit 2 for the system count.
    pub fn set_valid(&mut self, valid: u32)
        ensures block { simulated_means self.new ≡ with_word (group_place Valid) valid (simulated_means self.old) }
        ensures comparators { self.new.comparators ≡ self.old.comparators }
    {
        self.file.set(Place::from(GroupRegister::Valid), valid);
    }
}

// Passed on by hand, a line each: a generic block and a trait for what it keeps would be longer.
impl Block for SimulatedBlock {
    ghost model = { simulated_model };

    fn chip(&self) -> Chip {
        self.file.chip()
    }

    fn get(&mut self, at: Place) -> u32 {
        self.file.get(at)
    }

    fn put(&mut self, at: Place, word: u32) {
        self.file.put(at, word);
        restart(&mut self.comparators, at);
    }

    fn words(&self) -> Words {
        self.file.words()
    }
}
