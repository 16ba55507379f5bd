// The bases of a k-mer, by their places.
ghost use Rattle.std.specs.Prelude.{◌≡◌, ◌-◌, ◌/◌, ◌%◌, ◌^◌, ◌<◌, get_or};
ghost use Rattle.dna.specs.Calls.{code_in};
ghost use Rattle.kmer.specs.Bits.{bits_from};
ghost use Rattle.kmer.specs.Calls.{get_call};
ghost use Rattle.kmer.specs.Says.{value_of, says};

use super::{Kmer, KmerError, verdict};
use dna::Base;

// The bits of a k-mer from a place on, as far as the word goes where they begin.
pub(crate) fn bits_from(x: Kmer, shift: usize) -> u64
    requires { shift < 128 }
    ensures { result ≡ bits_from shift (get_or x.words 0 0) (get_or x.words 1 0) }
{
    if shift < 64 {
        x.words[0] >> shift
    } else {
        x.words[1] >> (shift - 64)
    }
}

// The bits of the base with j bases behind it.
pub(crate) fn digit(x: Kmer, j: usize) -> u8
    requires { j < 64 }
    ensures { result ≡ value_of x / 4 ^ j % 4 }
{
    (bits_from(x, 2 * j) & 3) as u8
}

impl Kmer {
    // The base at a place, the first at 0.
    #[tactic(auto, unfolding(crate::specs::Kmer::base_at))]
    pub fn get(self, k: usize, idx: usize) -> Result<Base, KmerError>
        ensures { says code_in result ≡ get_call k (value_of self) idx }
    {
        verdict::verdict_below(k, self, k, idx)?;
        Ok(Base::from_bits(digit(self, k - 1 - idx)))
    }

    pub fn front(self, k: usize) -> Result<Base, KmerError>
        ensures { says code_in result ≡ get_call k (value_of self) 0 }
    {
        self.get(k, 0)
    }

    pub fn back(self, k: usize) -> Result<Base, KmerError>
        ensures { says code_in result ≡ get_call k (value_of self) (k - 1) }
    {
        self.get(k, k.saturating_sub(1))
    }
}
