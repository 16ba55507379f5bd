// The numeric order, and the canonical form.
ghost use Rattle.std.specs.Prelude.{◌≡◌, ltb, eqb};
ghost use Rattle.kmer.specs.Calls.{less_call, canon_call, is_canon_call};
ghost use Rattle.kmer.specs.Says.{value_of, says, Answers};

use super::{Kmer, KmerError, reverse, verdict};

impl Kmer {
    // The first of two numbers of two words is the smaller one, whatever K is. A derived `Ord` would compare the low
    // words first, and one by hand needs its laws at words of any size.
    pub fn is_less(self, other: Kmer) -> bool
        ensures { result ≡ ltb (value_of self) (value_of other) }
    {
        if self.words[1] == other.words[1] {
            return self.words[0] < other.words[0];
        }
        self.words[1] < other.words[1]
    }

    // Two numbers of two words are the same, whatever K is.
    pub fn is_same(self, other: Kmer) -> bool
        ensures { result ≡ eqb (value_of self) (value_of other) }
    {
        self == other
    }

    // The first of two k-mers is the smaller one.
    pub fn less(self, k: usize, other: Kmer) -> Result<bool, KmerError>
        ensures { says (λ t. t) result ≡ less_call k (value_of self) (value_of other) }
    {
        verdict::verdict(k, self)?;
        verdict::verdict(k, other)?;
        Ok(self.is_less(other))
    }

    // The smaller of a k-mer and its reverse complement.
    pub fn canonical(self, k: usize) -> Result<Kmer, KmerError>
        ensures { Answers result (canon_call k (value_of self)) }
    {
        let k = verdict::verdict(k, self)?;
        let turned = reverse::reversed(k, self);
        if turned.is_less(self) {
            Ok(turned)
        } else {
            Ok(self)
        }
    }

    // A palindrome counts as canonical.
    pub fn is_canonical(self, k: usize) -> Result<bool, KmerError>
        ensures { says (λ t. t) result ≡ is_canon_call k (value_of self) }
    {
        let k = verdict::verdict(k, self)?;
        let turned = reverse::reversed(k, self);
        Ok(!turned.is_less(self))
    }
}
