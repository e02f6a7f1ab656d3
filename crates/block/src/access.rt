// What a register block is to everybody above it.
ghost use Rattle.std.specs.Prelude.{◌≡◌, [], ◌∷◌, slice_index};
ghost use Rattle.block.specs.Accesses.{Get, Put};
ghost use Rattle.block.specs.Model.{Model};

use crate::place::Place;
use crate::words::Words;
use base::chip::Chip;

/// A block means its chip and its words, and says which accesses were made of it.
pub trait Block {
    ghost model: { Model Self };

    /// The chip that the block is of.
    fn chip(&self) -> Chip
        ensures { result ≡ (model.means self.now).chip };

    /// One access: the word at the place.
    fn get(&mut self, at: Place) -> u32
        ensures did { model.did self.old (Get at.index ∷ []) self.new }
        ensures word { result ≡ slice_index (model.means self.old).words at.index };

    /// One access: the word is put by the place's rule.
    fn put(&mut self, at: Place, word: u32)
        ensures { model.did self.old (Put at.index word ∷ []) self.new };

    /// Every word, by no access: for reading settings.
    fn words(&self) -> Words
        ensures { result ≡ (model.means self.now).words };
}
