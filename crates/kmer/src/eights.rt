// Letters eight at a time: a word has eight of them, the first in the highest byte.
ghost use Rattle.std.specs.Prelude.{◌≡◌, [], ◌+◌, ◌≤◌, length, take, drop};
ghost use Rattle.dna.specs.Letters.{first_bad};
ghost use Rattle.kmer.specs.Packing.{valid_packed, bytes_in, Packs};

use super::Kmer;
use super::length::Length;

// A k-mer, and a number that is 0 only where all its letters are bases.
#[derive(Clone, Copy)]
pub(crate) struct Packed {
    pub(crate) kmer: Kmer,
    pub(crate) strange: u64,
}

// The eight letters from a place on, which the compiler reads at once.
fn eight(seq: &[u8], at: usize) -> u64
    requires { at + 8 ≤ length seq.now }
    ensures { bytes_in 8 result ≡ take 8 (drop at seq.now) }
{
    u64::from_be_bytes([
        seq[at],
        seq[at + 1],
        seq[at + 2],
        seq[at + 3],
        seq[at + 4],
        seq[at + 5],
        seq[at + 6],
        seq[at + 7],
    ])
}

// Each letter's code, by the two bits that a base has by itself, moved together: in pairs of letters, in fours, then
// all.
fn codes(x: u64) -> u64
    ensures { result ≡ valid_packed (bytes_in 8 x) }
{
    let ones = ((x >> 2) ^ (x >> 1)) & 0x0303_0303_0303_0303;
    let twos = (ones | (ones >> 6)) & 0x000f_000f_000f_000f;
    let fours = (twos | (twos >> 12)) & 0x0000_00ff_0000_00ff;
    (fours | (fours >> 24)) & 0xffff
}

// 0 only where all eight are bases, in either case. Of a base's bits, 7 and 3 are clear and 6 is set; 4 is set exactly
// where 2 is and 1 is not, as in T and U; and 4 or 0 is set. Bit 0 of each byte of `good` says whether that is so of
// it: what must be set is, and nothing is wrong.
fn strange(x: u64) -> u64
    ensures { result ≡ 0 → first_bad 0 (bytes_in 8 x) ≡ [] }
{
    let thymine = (x >> 2) ^ ((x >> 2) & (x >> 1));
    let either = (x >> 4) | x;
    let set = (x >> 6) & either;
    let wrong = (either >> 3) | ((x >> 4) ^ thymine);
    let good = set ^ (set & wrong);
    (good & 0x0101_0101_0101_0101) ^ 0x0101_0101_0101_0101
}

// Eight letters or more: some of the first eight, so many that a multiple of eight is left, and then eight at a time.
pub(crate) fn pack(k: Length, seq: &[u8]) -> Packed
    requires { (8 ≤ k.bases) × (k.bases ≤ length seq.now) }
    ensures { Packs (take k.bases seq.now) result }
{
    let first = (k.bases - 1) % 8 + 1;
    let x = eight(seq, 0);
    let mut high = 0;
    let mut low = codes(x) >> (16 - 2 * first);
    let mut found = strange(x);
    let mut i = first;
    // A `for` over `(first..k.bases).step_by(8)` takes a tenth longer.
    while i < k.bases {
        let y = eight(seq, i);
        high = (high << 16) | (low >> 48);
        low = (low << 16) | codes(y);
        found |= strange(y);
        i += 8;
    }
    Packed {
        kmer: Kmer { words: [low, high] },
        strange: found,
    }
}
