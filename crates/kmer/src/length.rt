// A supported K, and the bits that its k-mers may use.
ghost use Rattle.std.specs.Prelude.{◌≡◌, ◌-◌, ◌^◌, ◌≤◌};
ghost use Rattle.dna.specs.Answer.{gives};
ghost use Rattle.kmer.specs.Bits.{low_bits, high_bits};
ghost use Rattle.kmer.specs.Calls.{with_k};
ghost use Rattle.kmer.specs.Says.{says};

use super::KmerError;

// How many bases a k-mer has: from 1 to 63.
#[derive(Clone, Copy)]
pub(crate) struct Length {
    pub(crate) bases: usize,
    ghost some: { 1 ≤ bases },
    ghost room: { bases ≤ 63 },
}

// The n low bits set.
fn ones(n: usize) -> u64
    requires { n ≤ 64 }
    ensures { result ≡ 2 ^ n - 1 }
{
    if n == 64 { u64::MAX } else { (1 << n) - 1 }
}

impl Length {
    // Any other K is refused.
    pub(crate) fn new(k: usize) -> Result<Length, KmerError>
        ensures { says (λ l. l.bases) result ≡ with_k k (gives k) }
    {
        if (1..=63).contains(&k) {
            Ok(Length { bases: k })
        } else {
            Err(KmerError::UnsupportedK(k))
        }
    }

    // The bits that the low word of a k-mer may use.
    pub(crate) fn low_mask(self) -> u64
        ensures { result ≡ 2 ^ low_bits self.bases - 1 }
    {
        if self.bases < 32 {
            ones(2 * self.bases)
        } else {
            ones(64)
        }
    }

    // The bits that the high word of a k-mer may use.
    pub(crate) fn high_mask(self) -> u64
        ensures { result ≡ 2 ^ high_bits self.bases - 1 }
    {
        if self.bases < 32 {
            0
        } else {
            ones(2 * self.bases - 64)
        }
    }
}
