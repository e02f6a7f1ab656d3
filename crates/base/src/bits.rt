// The bits of a word.
ghost use Rattle.std.specs.Prelude.{◌≡◌};
ghost use Rattle.base.specs.Bits.{bit};

/// Whether bit `n` is set; a word has 32 bits, and none from 32 on is.
pub fn is_set(word: u32, n: u8) -> bool
    ensures { result ≡ bit word n }
{
    n < 32 && (word >> n) % 2 == 1
}
