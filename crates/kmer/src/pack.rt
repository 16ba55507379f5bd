// A k-mer from letters, and from two words.
ghost use Rattle.std.specs.Prelude.{◌≡◌, [], ◌≤◌, length, take};
ghost use Rattle.dna.specs.Letters.{first_bad};
ghost use Rattle.kmer.specs.Kmer.{packed};
ghost use Rattle.kmer.specs.Packing.{valid_packed, Packs};
ghost use Rattle.kmer.specs.Calls.{pack_bases, pack_call, words_call};
ghost use Rattle.kmer.specs.Says.{says, Answers};

use super::eights::Packed;
use super::length::Length;
use super::{Kmer, KmerError, eights, verdict, words};

// The first letter that is no base is refused.
fn bases_verdict(seq: &[u8]) -> Result<(), KmerError>
    ensures { says (λ _. packed seq.now) result ≡ pack_bases seq.now (first_bad 0 seq.now) }
{
    for (place, &byte) in seq.iter().enumerate() {
        if !dna::is_dna_ascii(byte) {
            return Err(KmerError::InvalidBase { place, byte });
        }
    }
    Ok(())
}

// What the quick test found strange is tested letter by letter.
fn letters_verdict(strange: u64, seq: &[u8]) -> Result<(), KmerError>
    requires { strange ≡ 0 → first_bad 0 seq.now ≡ [] }
    ensures { says (λ _. packed seq.now) result ≡ pack_bases seq.now (first_bad 0 seq.now) }
{
    if strange == 0 {
        return Ok(());
    }
    bases_verdict(seq)
}

// Up to 32 letters as one word.
fn word_of(seq: &[u8]) -> u64
    requires { length seq.now ≤ 32 }
    ensures { result ≡ valid_packed seq.now }
{
    let mut word = 0;
    for &byte in seq {
        word = words::push_low(word, u64::from(dna::valid_ascii_base_bits(byte)));
    }
    word
}

// The first K letters, read by their bits; fewer than eight are left to the test letter by letter.
fn pack(k: Length, seq: &[u8]) -> Packed
    requires { k.bases ≤ length seq.now }
    ensures { Packs (take k.bases seq.now) result }
{
    if k.bases < 8 {
        return Packed {
            kmer: Kmer {
                words: [word_of(&seq[..k.bases]), 0],
            },
            strange: 1,
        };
    }
    eights::pack(k, seq)
}

impl Kmer {
    // The first K letters; what stands behind them is ignored.
    #[tactic(auto, unfolding(crate::specs::Calls::pack_call, crate::specs::Calls::with_letters))]
    pub fn from_ascii(k: usize, seq: &[u8]) -> Result<Kmer, KmerError>
        ensures { Answers result (pack_call k seq.now) }
    {
        let k = Length::new(k)?;
        if seq.len() < k.bases {
            return Err(KmerError::TooShort(seq.len()));
        }
        let p = pack(k, seq);
        letters_verdict(p.strange, &seq[..k.bases])?;
        Ok(p.kmer)
    }

    pub fn from_words(k: usize, low: u64, high: u64) -> Result<Kmer, KmerError>
        ensures { Answers result (words_call k low high) }
    {
        let x = Kmer { words: [low, high] };
        verdict::verdict(k, x)?;
        Ok(x)
    }
}
