// The register block on examples: its refusals at their edges, the recorder around a full list, the protection.
#![tactic(auto)]

ghost use Rattle.std.specs.Prelude.{[], ◌∷◌};
ghost use Rattle.block.specs.Accesses.{Put};
ghost use Rattle.block.specs.Places.{protection_place, watchdog_place};
ghost use Rattle.block.specs.Puts.{open_key};

use base::registers::WatchdogRegister;
use block::access::Block;
use block::protection::OpenProtection;

#[cfg(test)]
mod tests;

/// One put at a watchdog's register, between opening the protection and closing it.
pub fn put_protected<B: Block>(block: &mut B, register: WatchdogRegister, word: u32)
    ensures { B.Block.model.did block.old (Put protection_place open_key ∷ Put (watchdog_place register) word ∷ Put protection_place 0 ∷ []) block.new }
{
    let open = OpenProtection::open(block);
    open.put(block, register, word);
    open.close(block);
}
