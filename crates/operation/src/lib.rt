// The operations on a register, each of one or two accesses.
#![tactic(auto)]

ghost use Rattle.std.specs.Prelude.{◌≡◌, [], ◌∷◌, slice_index};
ghost use Rattle.operation.specs.Operations.{Read, Write, Modify, switched, Performed};

use block::access::Block;
use block::place::Place;

/// One get: the word at the place.
#[tactic(auto, using(crate::proofs::Joined::performed_read, crate::proofs::Joined::get_keeps))]
pub fn read<B: Block>(block: &mut B, at: Place) -> u32
    ensures did { Performed B.Block.model block.old (Read at.index ∷ []) block.new }
    ensures word { result ≡ slice_index (B.Block.model.means block.old).words at.index }
    ensures same { B.Block.model.means block.new ≡ B.Block.model.means block.old }
{
    block.get(at)
}

/// One put of the word.
#[tactic(auto, using(crate::proofs::Joined::performed_write))]
pub fn write<B: Block>(block: &mut B, at: Place, word: u32)
    ensures { Performed B.Block.model block.old (Write at.index word ∷ []) block.new }
{
    block.put(at, word);
}

/// One get, then one put of the same word with the bits of `keep` kept and those of `on` set.
#[tactic(auto, using(crate::proofs::Joined::performed_modify))]
pub fn modify<B: Block>(block: &mut B, at: Place, keep: u32, on: u32)
    ensures { Performed B.Block.model block.old (Modify at.index keep on ∷ []) block.new }
{
    let word = block.get(at);
    block.put(at, (word & keep) | on);
}

/// A modify that sets the bits of `bits`, or clears them, and keeps all others.
pub fn switch<B: Block>(block: &mut B, at: Place, bits: u32, on: bool)
    ensures { Performed B.Block.model block.old (switched at.index bits on ∷ []) block.new }
{
    modify(block, at, !bits, if on { bits } else { 0 });
}
