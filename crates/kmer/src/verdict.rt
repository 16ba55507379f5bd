// What a call on a k-mer refuses: 1, 14 and 10, in this order.
ghost use Rattle.std.specs.Prelude.{◌≡◌, ◌^◌, ltb};
ghost use Rattle.dna.specs.Answer.{gives};
ghost use Rattle.kmer.specs.Calls.{on_kmer, below};
ghost use Rattle.kmer.specs.Says.{value_of, says};

use super::length::Length;
use super::{Kmer, KmerError};

// A k-mer is below 4 to the K.
fn is_below(k: Length, x: Kmer) -> bool
    ensures { result ≡ ltb (value_of x) (4 ^ k.bases) }
{
    x.words[0] <= k.low_mask() && x.words[1] <= k.high_mask()
}

// The refusals of every call on a k-mer.
pub(crate) fn verdict(k: usize, x: Kmer) -> Result<Length, KmerError>
    ensures { says (λ l. l.bases) result ≡ on_kmer k (value_of x) (gives k) }
{
    let k = Length::new(k)?;
    if !is_below(k, x) {
        return Err(KmerError::NotBelow);
    }
    Ok(k)
}

// The refusals of a call that is also given a number that has to be below a bound.
pub(crate) fn verdict_below(
    k: usize,
    x: Kmer,
    bound: usize,
    number: usize,
) -> Result<Length, KmerError>
    ensures { says (λ l. l.bases) result ≡ on_kmer k (value_of x) (below bound number (gives k)) }
{
    let k = verdict(k, x)?;
    if bound <= number {
        return Err(KmerError::OutOfRange);
    }
    Ok(k)
}
