// The watchdog's registers take a put only while their protection stands open.
ghost use Rattle.std.specs.Prelude.{◌≡◌, [], ◌∷◌, slice_index};
ghost use Rattle.block.specs.Accesses.{Get, Put};
ghost use Rattle.block.specs.Places.{protection_place, watchdog_place};
ghost use Rattle.block.specs.Puts.{open_key};

use crate::access::Block;
use crate::place::Place;
use crate::words::KEY;
use base::registers::WatchdogRegister;

/// The protection of a block stands open. It is not `Drop`: whoever holds it owes the closing, which alone ends it.
pub struct OpenProtection(());

impl OpenProtection {
    pub fn open<B: Block>(block: &mut B) -> OpenProtection
        ensures { B.Block.model.did block.old (Put protection_place open_key ∷ []) block.new }
    {
        block.put(Place::protection(), KEY);
        OpenProtection(())
    }

    pub fn get<B: Block>(&self, block: &mut B, register: WatchdogRegister) -> u32
        ensures did { B.Block.model.did block.old (Get (watchdog_place register) ∷ []) block.new }
        ensures word { result ≡ slice_index (B.Block.model.means block.old).words (watchdog_place register) }
    {
        block.get(Place::watchdog(register))
    }

    pub fn put<B: Block>(&self, block: &mut B, register: WatchdogRegister, word: u32)
        ensures { B.Block.model.did block.old (Put (watchdog_place register) word ∷ []) block.new }
    {
        block.put(Place::watchdog(register), word);
    }

    pub fn close<B: Block>(self, block: &mut B)
        ensures { B.Block.model.did block.old (Put protection_place 0 ∷ []) block.new }
    {
        let OpenProtection(()) = self;
        block.put(Place::protection(), 0);
    }
}
