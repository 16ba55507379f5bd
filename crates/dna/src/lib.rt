// DNA letters, complements, reversal and rotation.
#![tactic(auto)]

ghost use Rattle.std.specs.Prelude.{◌≡◌, min, ltb};
ghost use Rattle.dna.specs.Letters.{code_of, letter_of, complement, is_base, complement_letter, valid_bits};
ghost use Rattle.dna.specs.Calls.{code_in, bits_where};

mod labels;

pub use labels::{copy, least_rotation_start, minimal_rotation, reverse_complement_label};

// A base: N is a letter that is none, E is "no base".
#[derive(Clone, Copy, PartialEq, Eq, Debug)]
pub enum Base {
    A,
    C,
    G,
    T,
    N,
    E,
}

// A text does not fit its slice, and nothing was written.
#[derive(Clone, Copy, PartialEq, Eq, Debug)]
pub struct NoRoom;

// The code of a byte that is no base.
pub const INVALID_BASE_BITS: u8 = 4;

impl Base {
    #[tactic(auto, unfolding(crate::specs::Letters::complement))]
    pub fn complement(self) -> Base
        ensures { code_in result ≡ complement (code_in self) }
    {
        match self {
            Base::A => Base::T,
            Base::C => Base::G,
            Base::G => Base::C,
            Base::T => Base::A,
            Base::N => Base::N,
            Base::E => Base::E,
        }
    }

    #[tactic(auto, unfolding(crate::specs::Letters::letter_of))]
    pub fn to_ascii(self) -> u8
        ensures { result ≡ letter_of (code_in self) }
    {
        match self {
            Base::A => b'A',
            Base::C => b'C',
            Base::G => b'G',
            Base::T => b'T',
            Base::N => b'N',
            Base::E => b'$',
        }
    }

    // The base of a code; every number above E's is read as E.
    pub fn from_bits(bits: u8) -> Base
        ensures { code_in result ≡ min bits 5 }
    {
        match bits {
            0 => Base::A,
            1 => Base::C,
            2 => Base::G,
            3 => Base::T,
            4 => Base::N,
            _ => Base::E,
        }
    }

    #[tactic(auto, using(crate::proofs::Letters::valid_code, crate::proofs::Letters::no_base))]
    pub fn from_ascii(byte: u8) -> Base
        ensures { code_in result ≡ code_of byte }
    {
        if is_dna_ascii(byte) {
            Base::from_bits(valid_ascii_base_bits(byte))
        } else {
            Base::N
        }
    }

    pub fn is_dna(self) -> bool
        ensures { result ≡ ltb (code_in self) 4 }
    {
        self.bits() < INVALID_BASE_BITS
    }

    pub fn bits(self) -> u8
        ensures { result ≡ code_in self }
    {
        self as u8
    }
}

// The letters are among the 64 bytes from 64 on, each case at the same places of its 32: the word has a bit set at the
// places of A, C, G, T and U.
pub fn is_dna_ascii(byte: u8) -> bool
    ensures { result ≡ is_base byte }
{
    if byte >> 6 != 1 {
        return false;
    }
    (0x0030_008a_u32 >> (byte & 31)) & 1 == 1
}

pub fn complement_ascii(byte: u8) -> u8
    ensures { result ≡ complement_letter byte }
{
    Base::from_ascii(byte).complement().to_ascii()
}

// The two bits of a byte that is a base.
#[tactic(auto, using(crate::proofs::Letters::valid_code))]
pub fn ascii_base_bits(byte: u8) -> Option<u8>
    ensures { result ≡ bits_where (λ c. c) byte }
{
    is_dna_ascii(byte).then_some(valid_ascii_base_bits(byte))
}

// The code of a byte that the caller knows to be a base; on another byte it means nothing.
pub fn valid_ascii_base_bits(byte: u8) -> u8
    ensures { result ≡ valid_bits byte }
{
    ((byte >> 2) ^ (byte >> 1)) & 0b11
}

// The two bits of the complement of a byte that is a base.
#[tactic(auto, using(crate::proofs::Letters::xor_three))]
pub fn ascii_complement_bits(byte: u8) -> Option<u8>
    ensures { result ≡ bits_where complement byte }
{
    ascii_base_bits(byte).map(|bits| bits ^ 0b11)
}
