// A k-mer's letters, written into a lent slice.
ghost use Rattle.std.specs.Prelude.{◌≡◌, ◌+◌, ◌*◌, ◌/◌, ◌%◌, ◌^◌, ◌<◌, ◌≤◌, length};
ghost use Rattle.lemmas.proofs.Building.{Built};
ghost use Rattle.dna.specs.Text.{over};
ghost use Rattle.kmer.specs.Kmer.{letters};
ghost use Rattle.kmer.specs.Bits.{four_at};
ghost use Rattle.kmer.specs.Calls.{letters_call};
ghost use Rattle.kmer.specs.Says.{value_of, Spells};

use super::length::Length;
use super::{Kmer, KmerError, bases, quads, verdict};
use dna::Base;

// The first n letters, one by one.
fn leading(k: Length, x: Kmer, n: usize, out: &mut [u8])
    requires { (n ≤ k.bases) × (n ≤ length out.old) }
    ensures { Built (letters k.bases (value_of x)) out.old out.new n }
{
    for (i, cell) in out[..n].iter_mut().enumerate() {
        *cell = Base::from_bits(bases::digit(x, k.bases - 1 - i)).to_ascii();
    }
}

// The byte with j bytes behind it: four bases.
fn byte_of(x: Kmer, j: usize) -> u8
    requires { j < 16 }
    ensures { result ≡ value_of x / 2 ^ (8 * j) % 2 ^ 8 }
{
    (bases::bits_from(x, 8 * j) & 0xff) as u8
}

// Four letters, the first in the lowest byte.
fn put_quad(quad: u32, at: usize, out: &mut [u8])
    requires { at + 4 ≤ length out.old }
    ensures { out.new ≡ four_at out.old at
        (quad % 2 ^ 8) (quad / 2 ^ 8 % 2 ^ 8) (quad / 2 ^ 16 % 2 ^ 8) (quad / 2 ^ 24 % 2 ^ 8) }
{
    let [a, b, c, d] = quad.to_le_bytes();
    out[at] = a;
    out[at + 1] = b;
    out[at + 2] = c;
    out[at + 3] = d;
}

// The K mod 4 leading letters one by one, then four letters for each byte.
fn write(k: Length, x: Kmer, out: &mut [u8])
    requires { k.bases ≤ length out.old }
    ensures { out.new ≡ over (letters k.bases (value_of x)) out.old }
{
    let first = k.bases % 4;
    leading(k, x, first, out);
    let quads = quads::table();
    let count = k.bases / 4;
    for i in 0..count {
        let byte = byte_of(x, count - 1 - i);
        put_quad(quads[usize::from(byte)], first + 4 * i, out);
    }
}

impl Kmer {
    // The letters, first base first, from out's first cell on.
    #[tactic(auto, using(crate::proofs::Spelling::length_letters))]
    pub fn append_ascii(self, k: usize, out: &mut [u8]) -> Result<usize, KmerError>
        ensures { Spells result out.new (letters_call k (value_of self) out.old) }
    {
        let k = verdict::verdict(k, self)?;
        if out.len() < k.bases {
            return Err(KmerError::NoRoom);
        }
        write(k, self, out);
        Ok(k.bases)
    }
}
