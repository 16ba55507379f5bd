// The rolls: one base leaves at an end, another enters at the other.
ghost use Rattle.std.specs.Prelude.{◌≡◌, ◌^◌, ◌<◌};
ghost use Rattle.dna.specs.Calls.{code_in};
ghost use Rattle.kmer.specs.Kmer.{forward, backward};
ghost use Rattle.kmer.specs.Calls.{forward_call, backward_call};
ghost use Rattle.kmer.specs.Says.{value_of, kmer_of, Answers};

use super::length::Length;
use super::{Kmer, KmerError, verdict, words};
use dna::Base;

// Both words move up a base; the top base of the low word enters the high word, and what is past K bases is masked off.
fn forward(k: Length, x: Kmer, bits: u64) -> Kmer
    requires { bits < 4 }
    ensures { result ≡ kmer_of (forward k.bases (value_of x) bits) }
{
    let [lo, hi] = x.words;
    let low = words::push_low(lo, bits) & k.low_mask();
    let high = words::push_low(hi, lo >> 62) & k.high_mask();
    Kmer { words: [low, high] }
}

// Both words move down a base; the last base of the high word enters the low word at the top, and the new base the word
// in which the first of K bases stands.
fn backward(k: Length, x: Kmer, bits: u64) -> Kmer
    requires { (bits < 4) × (value_of x < 4 ^ k.bases) }
    ensures { result ≡ kmer_of (backward k.bases (value_of x) bits) }
{
    let [lo, hi] = x.words;
    let low = words::push_high(lo, hi);
    let high = hi >> 2;
    let shift = 2 * (k.bases - 1);
    if shift < 64 {
        Kmer {
            words: [low | (bits << shift), high],
        }
    } else {
        Kmer {
            words: [low, high | (bits << (shift - 64))],
        }
    }
}

impl Kmer {
    // The first base dropped, one appended.
    pub fn roll_forward(self, k: usize, next: Base) -> Result<Kmer, KmerError>
        ensures { Answers result (forward_call k (value_of self) (code_in next)) }
    {
        let bits = next.bits();
        let k = verdict::verdict_below(k, self, 4, usize::from(bits))?;
        Ok(forward(k, self, u64::from(bits)))
    }

    // The last base dropped, one put in front.
    pub fn roll_backward(self, k: usize, prev: Base) -> Result<Kmer, KmerError>
        ensures { Answers result (backward_call k (value_of self) (code_in prev)) }
    {
        let bits = prev.bits();
        let k = verdict::verdict_below(k, self, 4, usize::from(bits))?;
        Ok(backward(k, self, u64::from(bits)))
    }
}
