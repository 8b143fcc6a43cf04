// Little-endian numbers: the word that four bytes spell and the half that two do, and the bytes of each, the least one first.

#![tactic(auto)]

ghost use Rattle.std.specs.Prelude.{◌≡◌};
ghost use Rattle.words.specs.Words.{word, word_bytes, half, half_bytes};

// The bytes of a word, and of a half.
pub const WORD_BYTES: usize = 4;

pub const HALF_BYTES: usize = 2;

// The word that four bytes spell.
pub fn joined(b0: u8, b1: u8, b2: u8, b3: u8) -> u32
    ensures { result ≡ word b0 b1 b2 b3 }
{
    u32::from_le_bytes([b0, b1, b2, b3])
}

// The four bytes of a word.
#[tactic(auto, unfolding(crate::specs::Words::word_bytes))]
pub fn bytes_of(x: u32) -> [u8; 4]
    ensures { result ≡ word_bytes x }
{
    u32::to_le_bytes(x)
}

// The half that two bytes spell.
pub fn half_joined(b0: u8, b1: u8) -> u16
    ensures { result ≡ half b0 b1 }
{
    u16::from_le_bytes([b0, b1])
}

// The two bytes of a half.
#[tactic(auto, unfolding(crate::specs::Words::half_bytes))]
pub fn half_bytes_of(x: u16) -> [u8; 2]
    ensures { result ≡ half_bytes x }
{
    u16::to_le_bytes(x)
}
