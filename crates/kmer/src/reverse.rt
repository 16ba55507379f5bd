// The reverse complement.
ghost use Rattle.std.specs.Prelude.{◌≡◌, ◌+◌, ◌^◌};
ghost use Rattle.kmer.specs.Kmer.{rc};
ghost use Rattle.kmer.specs.Calls.{reverse_call};
ghost use Rattle.kmer.specs.Says.{value_of, kmer_of, Answers};

use super::length::Length;
use super::{Kmer, KmerError, verdict};

// The 32 bases of a word, the last first: neighbours change places, then pairs, then bytes. The contract says it of the
// reverse complement, which is what `!` makes of the result.
fn flip(word: u64) -> u64
    ensures { result + rc 32 word + 1 ≡ 2 ^ 64 }
{
    let ones = ((word & 0x3333_3333_3333_3333) << 2) | ((word >> 2) & 0x3333_3333_3333_3333);
    let twos = ((ones & 0x0f0f_0f0f_0f0f_0f0f) << 4) | ((ones >> 4) & 0x0f0f_0f0f_0f0f_0f0f);
    twos.swap_bytes()
}

// Both words flipped and complemented, then moved down by the bits that K leaves free.
pub(crate) fn reversed(k: Length, x: Kmer) -> Kmer
    ensures { result ≡ kmer_of (rc k.bases (value_of x)) }
{
    let k = k.bases;
    let high = !flip(x.words[0]);
    if k <= 32 {
        Kmer {
            words: [high >> (64 - 2 * k), 0],
        }
    } else {
        let low = !flip(x.words[1]);
        let shift = 128 - 2 * k;
        Kmer {
            words: [(low >> shift) | (high << (64 - shift)), high >> shift],
        }
    }
}

impl Kmer {
    pub fn reverse_complement(self, k: usize) -> Result<Kmer, KmerError>
        ensures { Answers result (reverse_call k (value_of self)) }
    {
        let k = verdict::verdict(k, self)?;
        Ok(reversed(k, self))
    }
}
