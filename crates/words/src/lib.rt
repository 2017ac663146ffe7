// The bits of a 16-bit word.
#![tactic(auto)]

ghost use Rattle.std.specs.Prelude.{◌≡◌};
ghost use Rattle.words.specs.Words.{bit, of_bits, share};

// Whether bit i of a word is set, bit 0 the lowest.
#[tactic(auto, unfolding(crate::specs::Words::bit))]
pub fn bit(i: u8, word: u16) -> bool
    ensures { result ≡ bit i word }
{
    if i < 16 {
        return (word >> i) % 2 == 1;
    }
    false
}

// Whether two words share a bit.
pub fn share(a: u16, b: u16) -> bool
    ensures { result ≡ share a b }
{
    a & b != 0
}

// The word of eight bits, the lowest first.
#[tactic(auto, using(crate::proofs::Laws::of_eight_bits))]
pub fn of_bits(bits: [bool; 8]) -> u16
    ensures { result ≡ of_bits bits }
{
    u16::from(bits[0])
        + 2 * u16::from(bits[1])
        + 4 * u16::from(bits[2])
        + 8 * u16::from(bits[3])
        + 16 * u16::from(bits[4])
        + 32 * u16::from(bits[5])
        + 64 * u16::from(bits[6])
        + 128 * u16::from(bits[7])
}
